// Rows: sealed numbers, each with its position.
use keeper::position::Position;

// One sealed number.
#[derive(Clone, Copy)]
pub struct Row {
    pub position: Position,
    pub number: u32,
}
