// Bodies of letters: lists, warrants and acknowledgements, behind one reader.
#![tactic(auto)]

ghost use Rattle.std.specs.Prelude.{◌≡◌};
ghost use Rattle.parts.specs.Reading.{Reading, Within, giving};
ghost use Rattle.body.specs.declared.kinds.Body.{Body};
ghost use Rattle.body.specs.declared.kinds.Limits.{Limits};
ghost use Rattle.body.specs.Fitting.{Sound};

use fault::Fault;
use kinds::{Body, Limits};
use parts::span::{Part, Span};

pub mod kinds;
pub mod sorts;

// A sort of body: how one is read, with a result of its own.
pub trait BodySort {
    type Read: Copy;

    // what stands at the front of some bytes
    ghost reading: { Limits → Reading Self.Read };

    // what was read, as a body of any sort
    ghost body: { Self.Read → Body };

    // Reads one at the front of the span. Limits are passed apart, since they stay while spans move on.
    fn read(span: Span, limits: Limits) -> Result<Part<Self::Read>, Fault>
        ensures answer { result ≡ reading limits span.entry.bytes.now span.entry.offset }
        ensures within { Within span.entry.bytes.now result };

    // What was read, as a body of any sort. No `From`: a number alone does not say which body it is.
    fn into_body(read: Self::Read) -> Body
        ensures { result ≡ body read };

    ghost sound: { (lim : Limits) → Sound lim (giving body (reading lim)) };
}
