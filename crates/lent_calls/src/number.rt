// What a call says, as numbers.
ghost use Rattle.std.specs.Prelude.{◌≡◌, ◌+◌, ◌*◌};
ghost use Rattle.refusals.specs.RefusalMeaning.{said};

use refusals::Refusal;

// The weight of the place.
const PLACE: u32 = 256;

// The number and the place of document 01, both 0 of a call that is answered.
pub fn number_and_place(answer: Result<(), Refusal>) -> (u8, u8)
    ensures { result ≡ ((said answer).number, (said answer).place) }
{
    match answer {
        Ok(()) => (0, 0),
        Err(refusal) => (refusal.number(), refusal.place()),
    }
}

// A number plus 256 times a place.
pub fn packed_numbers(number: u8, place: u8) -> u32
    ensures { result ≡ number + 256 * place }
{
    u32::from(number) + PLACE * u32::from(place)
}

// The number plus 256 times the place of what a call says, for hosts in C.
pub fn packed(answer: Result<(), Refusal>) -> u32
    ensures { result ≡ (said answer).number + 256 * (said answer).place }
{
    let (number, place) = number_and_place(answer);
    packed_numbers(number, place)
}
