// Document 01's numbers and offsets of refusals.
ghost use Rattle.std.specs.Prelude.{◌≡◌};
ghost use Rattle.block.specs.Refusal.{number_of, offset_of};

use block::Refusal;

// Stays: document 01's numbers of refusals (a), each function the definition of its name in block/specs/Refusal.antt.
// The number of a refusal.
#[tactic(auto, unfolding(block::specs::Refusal::number_of))]
pub fn number_of(why: Refusal) -> u64
    ensures { result ≡ number_of why }
{
    match why {
        Refusal::InputTooLong => 1,
        Refusal::Missing(_) => 2,
        Refusal::Kind(_) => 3,
        Refusal::Length(_) => 4,
        Refusal::Field(_) => 5,
        Refusal::NotRising(_) => 6,
        Refusal::BeyondLimit(_) => 7,
        Refusal::Behind(_) => 8,
        Refusal::Balances(_) => 9,
        Refusal::Code(_) => 10,
        Refusal::CallKeys(_) => 11,
        Refusal::AllKeys(_) => 12,
        Refusal::Workers => 13,
        Refusal::Buffers => 20,
    }
}

// The offset that a refusal tells; 0 where it has none.
#[tactic(auto, unfolding(block::specs::Refusal::offset_of))]
pub fn offset_of(why: Refusal) -> u64
    ensures { result ≡ offset_of why }
{
    match why {
        Refusal::InputTooLong | Refusal::Workers | Refusal::Buffers => 0,
        Refusal::Missing(at)
        | Refusal::Kind(at)
        | Refusal::Length(at)
        | Refusal::Field(at)
        | Refusal::NotRising(at)
        | Refusal::BeyondLimit(at)
        | Refusal::Behind(at)
        | Refusal::Balances(at)
        | Refusal::Code(at)
        | Refusal::CallKeys(at)
        | Refusal::AllKeys(at) => at as u64,
    }
}
