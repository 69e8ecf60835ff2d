// The region words of a partition: what goes into the two registers of each of the eight slots (document 01, "Region words").
#![tactic(auto)]

ghost use Rattle.std.specs.Prelude.{◌≡◌};
ghost use Rattle.words.specs.Slots.{slot_count};
ghost use Rattle.words.specs.Words.{up_to, no_words, words_of};
ghost use Rattle.region.specs.Parts.{EvenSizes, slot_at, answered};

use own::{OwnRows, own_rows};
use plan::Plan;
use records::PartitionNo;
use refusal::{Refusal, Verdict};
use v7::Slot;
use words::{Pair, Words};

mod v7;

const SLOTS: u32 = 8;

const NO_PAIR: Pair = Pair {
    first: 0,
    second: 0,
};

// A slot of a partition with these rows.
#[tactic(auto, using(words::proofs::SlotLaws::filled_slot, words::proofs::SlotLaws::free_slot))]
fn slot_at(own: OwnRows, slot: Slot) -> Pair
    requires { EvenSizes own }
    ensures { result ≡ slot_at own slot.number }
{
    let k = slot.number;
    if k < own.count {
        return v7::row_pair(slot, own.rows[k as usize]);
    }
    v7::free_pair(slot)
}

// Every slot is written, so that none keeps what an earlier owner had in it.
#[tactic(auto, using(words::proofs::WordsLaws::filled, words::proofs::WordsLaws::none_filled, words::proofs::WordsLaws::fill, words::proofs::WordsLaws::all_filled))]
fn slots_of(own: OwnRows) -> [Pair; 8]
    requires { EvenSizes own }
    ensures { result ≡ up_to (slot_at own) slot_count }
{
    let mut slots = [NO_PAIR; 8];
    for k in 0..SLOTS {
        slots[k as usize] = slot_at(own, Slot { number: k });
    }
    slots
}

fn no_words(verdict: Verdict) -> Words
    ensures { result ≡ no_words verdict }
{
    Words {
        slots: [NO_PAIR; 8],
        verdict,
    }
}

// The plan's refusal, else 15.
#[tactic(auto, using(accepted::proofs::AcceptedLaws::accepted_all, own::proofs::OwnLaws::owned_refused, own::proofs::OwnLaws::owned_accepted, own::proofs::OwnLaws::owned_only, words::proofs::WordsLaws::words_refused, words::proofs::WordsLaws::words_unknown, words::proofs::WordsLaws::words_found, crate::proofs::PartsLaws::slots_of_packed, crate::proofs::PartsLaws::even_sizes))]
fn slots_for(plan: &Plan<'_>, partition: PartitionNo) -> Result<[Pair; 8], Refusal>
    ensures { answered result ≡ words_of plan.now partition.0 }
{
    let own = own_rows(plan, partition)?;
    if PartitionNo::MAX < partition.0 {
        return Err(Refusal::NoWordsFor);
    }
    Ok(slots_of(own))
}

// The words of a partition: its rows in slots 0 upward, the other slots free.
pub fn words_of(plan: &Plan<'_>, partition: PartitionNo) -> Words
    ensures { result ≡ words_of plan.now partition.0 }
{
    match slots_for(plan, partition) {
        Ok(slots) => Words {
            slots,
            verdict: Ok(()),
        },
        Err(r) => no_words(Err(r)),
    }
}
