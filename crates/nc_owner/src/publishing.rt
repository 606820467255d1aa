//! The call that publishes a message.
ghost use Rattle.std.specs.Prelude.{◌≡◌, ◌≤◌, IfOk, OnOk, true};
ghost use Rattle.nc_types.specs.Message.{IsContentType};
ghost use Rattle.nc_owner.specs.Holds.{AllCarry};
ghost use Rattle.nc_owner.specs.AlertLines.{out_lines};
ghost use Rattle.nc_owner.specs.Pool.{SameOthers};
ghost use Rattle.nc_owner.specs.PublishClauses.{Publishes};
ghost use Rattle.nc_owner.specs.Publish.{message_of_order, stamp};
ghost use Rattle.nc_owner.specs.Rules.{IsAnswered, IsLateExactly, IsFullExactly, TellsMembers, FreesOnlyRetired, FreesUnheld, TakesLowest, IsFresh, answers_of};
ghost use Rattle.nc_owner.specs.State.{bench_of};

use crate::done::Done;
use crate::order::Order;
use crate::owner::Owner;
use crate::publish::publish_to;
use nc_slots::Slots;
use nc_types::NoMemory;

impl Owner {
    /// Publishes a message, as worker `from` orders it.
    ///
    /// The last alert is the answer to the order's request. Its status is 503 where there is no time left for a stamp,
    /// 507 where there is no slot left, with what is in use, and else 201 where the channel has a member and 202 where it has none.
    pub fn publish<P: Slots>(
        &mut self,
        pool: &mut P,
        from: u8,
        order: Order,
    ) -> Result<Done<P::Hold>, NoMemory>
        requires timeout { order.timeout ≤ 1000000000 }
        requires content_type { IsContentType order.content_type }
        ensures publishes { IfOk result (λ done. Publishes P.exact from order (P.slots pool.old self.old.desk.me) self.old
            (P.holds pool.old self.old.desk.me) done.events.events (out_lines done.alerts) (P.slots pool.new self.old.desk.me) self.new
            (P.holds pool.new self.old.desk.me)) }
        ensures carries { IfOk result (λ done. AllCarry P.held self.old.desk.me
            (message_of_order (stamp (bench_of order.chan (P.slots pool.old self.old.desk.me) self.old)) order self.old.desk.clock) done.alerts) }
        ensures others { OnOk result (SameOthers self.old.desk.me (P.slots pool.old) (P.slots pool.new)) }
        ensures other_holds { OnOk result (P.exact ≡ true → SameOthers self.old.desk.me (P.holds pool.old) (P.holds pool.new)) }

        // The owner's rules in their own words.
        ensures answered { IfOk result (λ done. IsAnswered (answers_of (out_lines done.alerts))) }
        ensures late { IfOk result (λ done. IsLateExactly order (P.slots pool.old self.old.desk.me) self.old (out_lines done.alerts)) }
        ensures full { IfOk result (λ done. P.exact ≡ true
            → IsFullExactly (P.holds pool.old self.old.desk.me) order (P.slots pool.old self.old.desk.me) self.old (out_lines done.alerts)) }
        ensures members { IfOk result (λ done. TellsMembers order self.old (out_lines done.alerts)) }
        ensures lowest { IfOk result (λ done. TakesLowest (P.slots pool.new self.old.desk.me) done.events.events) }
        ensures retired { IfOk result (λ done. FreesOnlyRetired self.old.desk.retired done.events.events) }
        ensures fresh { OnOk result (IsFresh order.chan self.new) }
        ensures freed { IfOk result (λ done. P.exact ≡ true → FreesUnheld (P.holds pool.old self.old.desk.me) done.events.events) }
    {
        let done = publish_to(
            self.alloc,
            &mut self.desk,
            &mut self.channels,
            pool,
            from,
            order,
        )?;
        Ok(done)
    }
}
