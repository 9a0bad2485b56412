// What is flown at a progress, or the refusal.
ghost use Rattle.c_answer.specs.Given.{Given};
ghost use Rattle.flight.specs.Flights.{flight_given};

use answers::Refusal;
use flight::Flight;
use floats::bits;
use table::number_of;

// What stands for the segment where there is none.
const NO_SEGMENT: usize = 4294967295;

// The bits of the position and of the tangent, the segment, and the bits of the raw parameter.
pub fn give_flight(flown: Result<Flight, Refusal>, answer: &mut [u64]) -> u32
    ensures { Given (flight_given flown) answer.old result answer.new }
{
    match flown {
        Ok(flight) => {
            let segment = flight.segment.unwrap_or(NO_SEGMENT);
            crate::given::accept_six(
                u64::from(bits(flight.position.x)),
                u64::from(bits(flight.position.y)),
                u64::from(bits(flight.tangent.x)),
                u64::from(bits(flight.tangent.y)),
                segment as u64,
                u64::from(bits(number_of(flight.raw))),
                answer,
            )
        }
        Err(refusal) => crate::given::refuse(refusal, answer),
    }
}
