//! Polls of slots.
ghost use Rattle.std.specs.Prelude.{◌≡◌, ◌++◌, OnOk, IfOk, true, map};
ghost use Rattle.nc_slots.specs.Slots.{is_held as shows_held};
ghost use Rattle.nc_owner.specs.Poll.{AnswerFits, AnswersFit, polled_slot, polled_all, told_answer, slot_of, freed_events, polled_desk, freed_desk, held_count};
ghost use Rattle.nc_owner.specs.Pool.{SameOthers};

use crate::desk::Desk;
use nc_journal::Event;
use nc_slots::{Polled, Slots};
use nc_types::{List, NoMemory};
use std::alloc::Global;

/// What a poll of a slot found: whether somebody holds it.
#[derive(Clone, Copy)]
pub struct PollAnswer {
    pub slot: u32,
    pub held: bool,
}

/// Whether a poll showed a hold.
fn is_held(polled: &Polled) -> bool
    ensures { result ≡ shows_held polled.now }
{
    match polled {
        Polled::Held { count: _ } => true,
        _ => false,
    }
}

/// What a poll of a slot finds.
fn poll_one<P: Slots>(pool: &mut P, me: u8, slot: u32) -> PollAnswer
    ensures slot { slot_of result ≡ slot }
    ensures fits { AnswerFits (P.slots pool.old me) result }
    ensures told { P.exact ≡ true → result ≡ told_answer (P.holds pool.old me) slot }
    ensures row { P.slots pool.new me ≡ polled_slot (P.slots pool.old me) result }
    ensures others { SameOthers me (P.slots pool.old) (P.slots pool.new) }
    ensures holds { P.exact ≡ true → P.holds pool.new ≡ P.holds pool.old }
{
    let held = is_held(&pool.poll(me, slot));
    PollAnswer { slot, held }
}

/// What polls of some slots find.
pub(crate) fn poll_each<P: Slots>(
    alloc: Global,
    pool: &mut P,
    me: u8,
    slots: &[u32],
) -> Result<Vec<PollAnswer>, NoMemory>
    ensures each { IfOk result (λ answers. map slot_of answers.items ≡ slots.now) }
    ensures fit { IfOk result (λ answers. AnswersFit (P.slots pool.old me) answers.items) }
    ensures told { IfOk result (λ answers. P.exact ≡ true → answers.items ≡ map (told_answer (P.holds pool.old me)) slots.now) }
    ensures row { IfOk result (λ answers. P.slots pool.new me ≡ polled_all answers.items (P.slots pool.old me)) }
    ensures others { OnOk result (SameOthers me (P.slots pool.old) (P.slots pool.new)) }
    ensures holds { OnOk result (P.exact ≡ true → P.holds pool.new ≡ P.holds pool.old) }
{
    let mut answers = Vec::new(alloc);
    for slot in slots {
        answers.push(poll_one(pool, me, *slot))?;
    }
    Ok(answers)
}

/// How many of the polled slots are held.
pub(crate) fn held_count(answers: &[PollAnswer]) -> usize
    ensures { result ≡ held_count answers.now }
{
    answers.iter().filter(|answer| answer.held).count()
}

/// All retired slots were polled: those that are held stay, the others are unused.
pub(crate) fn free_all(
    alloc: Global,
    desk: &mut Desk,
    answers: &[PollAnswer],
    events: &mut List<Event>,
) -> Result<(), NoMemory>
    ensures events { OnOk result (events.new ≡ events.old ++ freed_events desk.old.me answers.now) }
    ensures desk { OnOk result (desk.new ≡ polled_desk answers.now desk.old) }
{
    let mut held = List::new(alloc);
    for answer in answers {
        if answer.held {
            held.push(answer.slot)?;
        } else {
            events.push(Event::Freed {
                w: u64::from(desk.me),
                slot: u64::from(answer.slot),
            })?;
        }
    }
    desk.retired = held;
    Ok(())
}

/// Some retired slots were polled: those that nobody holds are unused.
pub(crate) fn free_some(
    alloc: Global,
    desk: &mut Desk,
    answers: &[PollAnswer],
    events: &mut List<Event>,
) -> Result<(), NoMemory>
    ensures events { OnOk result (events.new ≡ events.old ++ freed_events desk.old.me answers.now) }
    ensures desk { OnOk result (desk.new ≡ freed_desk answers.now desk.old) }
{
    for answer in answers {
        if !answer.held {
            desk.free(alloc, answer.slot);
            events.push(Event::Freed {
                w: u64::from(desk.me),
                slot: u64::from(answer.slot),
            })?;
        }
    }
    Ok(())
}

/// Polls all retired slots: those that are held stay, the others are unused.
pub(crate) fn poll_retired<P: Slots>(
    alloc: Global,
    desk: &mut Desk,
    pool: &mut P,
    events: &mut List<Event>,
) -> Result<Vec<PollAnswer>, NoMemory>
    ensures events { IfOk result (λ a. events.new ≡ events.old ++ freed_events desk.old.me a.items) }
    ensures desk { IfOk result (λ a. desk.new ≡ polled_desk a.items desk.old) }
    ensures row { IfOk result (λ a. P.slots pool.new desk.old.me ≡ polled_all a.items (P.slots pool.old desk.old.me)) }
    ensures each { IfOk result (λ a. map slot_of a.items ≡ desk.old.retired) }
    ensures fit { IfOk result (λ a. AnswersFit (P.slots pool.old desk.old.me) a.items) }
    ensures told { IfOk result (λ a. P.exact ≡ true → a.items ≡ map (told_answer (P.holds pool.old desk.old.me)) desk.old.retired) }
    ensures others { OnOk result (SameOthers desk.old.me (P.slots pool.old) (P.slots pool.new)) }
    ensures holds { OnOk result (P.exact ≡ true → P.holds pool.new ≡ P.holds pool.old) }
{
    let answers = poll_each(alloc, pool, desk.me, desk.retired.as_slice())?;
    free_all(alloc, desk, &answers, events)?;
    Ok(answers)
}
