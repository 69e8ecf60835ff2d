// A slot's two words on the first controller family: MPU_RBAR and MPU_RASR of the ARMv7-M manual, field by field.
ghost use Rattle.std.specs.Prelude.{◌≡◌, ◌<◌};
ghost use Rattle.std.specs.Int.Count.{count_trailing_zeros};
ghost use Rattle.words.specs.Slots.{slot_count};
ghost use Rattle.words.specs.Words.{ap_of, xn_of, row_pair, free_pair};

use records::Row;
use words::Pair;

// The number of a slot.
#[derive(Clone, Copy)]
pub(crate) struct Slot {
    pub number: u32,
    ghost one_of_eight: { number < slot_count },
}

// Where the fields start: in the first word ADDR and VALID, in the second XN, AP, TEX, SIZE and ENABLE.
const ADDR: u32 = 0x20;

const VALID: u32 = 0x10;

const XN: u32 = 0x1000_0000;

const AP: u32 = 0x0100_0000;

const TEX: u32 = 0x0008_0000;

const SIZE: u32 = 0x2;

const ENABLE: u32 = 0x1;

fn ap_of(access: u32) -> u32
    ensures { result ≡ ap_of access }
{
    if access == Row::WRITABLE { 3 } else { 6 }
}

fn xn_of(access: u32) -> u32
    ensures { result ≡ xn_of access }
{
    if access == Row::EXECUTABLE { 0 } else { 1 }
}

// The slot with row r.
#[tactic(auto, using(words::proofs::WordsLaws::ap_at_most, words::proofs::WordsLaws::xn_at_most), unfolding(words::specs::Words::row_pair))]
pub(crate) fn row_pair(slot: Slot, r: Row) -> Pair
    requires { 0 < count_trailing_zeros 32 r.size }
    ensures { result ≡ row_pair slot.number r }
{
    let size_field = r.size.trailing_zeros() - 1;
    let ap = ap_of(r.access);
    let xn = xn_of(r.access);
    Pair {
        first: r.base / ADDR * ADDR + VALID + slot.number,
        second: xn * XN + ap * AP + TEX + size_field * SIZE + ENABLE,
    }
}

// The slot switched off.
#[tactic(auto, unfolding(words::specs::Words::free_pair))]
pub(crate) fn free_pair(slot: Slot) -> Pair
    ensures { result ≡ free_pair slot.number }
{
    Pair {
        first: VALID + slot.number,
        second: 0,
    }
}
