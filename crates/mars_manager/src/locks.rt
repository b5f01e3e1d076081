// The steps on the words of the stripes.
ghost use Rattle.std.specs.Prelude.{ℕ, ◌≡◌, ◌≢◌, ◌<◌, ◌^◌, ◌/◌, IfOk, IfErr};
ghost use Rattle.history.specs.declared.locks.Mode.TheVariants as mode;
ghost use Rattle.stripe_words.specs.declared.hold.Hold.TheVariants.{Free, Trying, Shared, Exclusive};
ghost use Rattle.mars_manager.specs.Seat.{first_of, IsSeat};
ghost use Rattle.mars_manager.specs.Locks.{hold_of, with_hold, noted, marked_by, excluded_by, Finds, FindsOther, IsUntouched, IsUnwritten};

use crate::mars::Mars;
use crate::rule::{Back, Exclude, Mark, Release};
use crate::view::View;
use atomic_table::Seat;
use caller_steps::Core;
use stripe_words::{lock_bit, mark_bit};

impl<C: Core + Drop> Mars<C> {
    // Sets the mark of a pass, and gives the word as it was.
    fn mark(&self, seat: &mut Seat<Option<C>, View<C>>, number: u8, stripe: u8) -> u64
        requires table { seat.old.table_id ≡ self.now.table }
        requires seat { IsSeat number seat.old.me }
        requires stripe { stripe < 64 }
        requires free { hold_of stripe (first_of seat.old.me.0.passes) ≡ Free }
        ensures table { (seat.new.table_id ≡ seat.old.table_id) × (seat.new.id ≡ seat.old.id) }
        ensures seat { IsSeat number seat.new.me }
        ensures known { first_of seat.new.me.0.passes ≡ marked_by stripe result (first_of seat.old.me.0.passes) }
        ensures found { Finds number result }
    {
        self.table
            .shared
            .fetch_or::<Mark>(seat, usize::from(stripe), mark_bit(number))
    }

    // Makes a shared lock exclusive, where no other pass has a bit, and gives the word as it was.
    pub(crate) fn exclude(&self, seat: &mut Seat<Option<C>, View<C>>, number: u8, stripe: u8) -> u64
        requires table { seat.old.table_id ≡ self.now.table }
        requires seat { IsSeat number seat.old.me }
        requires stripe { stripe < 64 }
        requires shared { hold_of stripe (first_of seat.old.me.0.passes) ≡ Shared }
        ensures table { (seat.new.table_id ≡ seat.old.table_id) × (seat.new.id ≡ seat.old.id) }
        ensures seat { IsSeat number seat.new.me }
        ensures known { result ≡ 2 ^ number → first_of seat.new.me.0.passes ≡ excluded_by stripe result (first_of seat.old.me.0.passes) }
        ensures refused { result ≢ 2 ^ number → (first_of seat.new.me.0.passes ≡ noted stripe mode.Exclusive result (first_of seat.old.me.0.passes)) × FindsOther number result }
    {
        let mark = mark_bit(number);
        self.table
            .shared
            .compare_exchange::<Exclude>(seat, usize::from(stripe), mark, mark | lock_bit(number))
    }

    // Locks a stripe that the pass has nothing of for reading; or gives the word that it found.
    pub(crate) fn gain(
        &self,
        seat: &mut Seat<Option<C>, View<C>>,
        number: u8,
        stripe: u8,
    ) -> Result<(), u64>
        requires table { seat.old.table_id ≡ self.now.table }
        requires seat { IsSeat number seat.old.me }
        requires stripe { stripe < 64 }
        requires free { hold_of stripe (first_of seat.old.me.0.passes) ≡ Free }
        ensures table { (seat.new.table_id ≡ seat.old.table_id) × (seat.new.id ≡ seat.old.id) }
        ensures seat { IsSeat number seat.new.me }
        ensures gained { IfOk result (λ _. (found : ℕ) × (first_of seat.new.me.0.passes ≡ noted stripe mode.Shared found (with_hold stripe Shared (first_of seat.old.me.0.passes)))) }
        ensures refused { IfErr result (λ found. (first_of seat.new.me.0.passes ≡ noted stripe mode.Shared found (first_of seat.old.me.0.passes)) × Finds number found × (found / 2 ^ 32 ≢ 0)) }
    {
        let found = self.mark(seat, number, stripe);
        if found >> 32 == 0 {
            return Ok(());
        }
        self.undo(seat, number, stripe);
        Err(found)
    }

    // Takes back a mark that was a try.
    fn undo(&self, seat: &mut Seat<Option<C>, View<C>>, number: u8, stripe: u8)
        requires table { seat.old.table_id ≡ self.now.table }
        requires seat { IsSeat number seat.old.me }
        requires stripe { stripe < 64 }
        requires trying { hold_of stripe (first_of seat.old.me.0.passes) ≡ Trying }
        ensures table { (seat.new.table_id ≡ seat.old.table_id) × (seat.new.id ≡ seat.old.id) }
        ensures seat { IsSeat number seat.new.me }
        ensures known { first_of seat.new.me.0.passes ≡ with_hold stripe Free (first_of seat.old.me.0.passes) }
    {
        self.table
            .shared
            .fetch_and::<Release>(seat, usize::from(stripe), !mark_bit(number));
    }

    // Gives a stripe up.
    pub(crate) fn release(&self, seat: &mut Seat<Option<C>, View<C>>, number: u8, stripe: u8)
        requires table { seat.old.table_id ≡ self.now.table }
        requires seat { IsSeat number seat.old.me }
        requires stripe { stripe < 64 }
        requires untouched { IsUntouched stripe (first_of seat.old.me.0.passes) }
        ensures table { (seat.new.table_id ≡ seat.old.table_id) × (seat.new.id ≡ seat.old.id) }
        ensures seat { IsSeat number seat.new.me }
        ensures known { first_of seat.new.me.0.passes ≡ with_hold stripe Free (first_of seat.old.me.0.passes) }
    {
        let both = mark_bit(number) | lock_bit(number);
        self.table
            .shared
            .fetch_and::<Release>(seat, usize::from(stripe), !both);
    }

    // Makes an exclusive lock shared.
    pub(crate) fn back(&self, seat: &mut Seat<Option<C>, View<C>>, number: u8, stripe: u8)
        requires table { seat.old.table_id ≡ self.now.table }
        requires seat { IsSeat number seat.old.me }
        requires stripe { stripe < 64 }
        requires full { hold_of stripe (first_of seat.old.me.0.passes) ≡ Exclusive }
        requires unwritten { IsUnwritten stripe (first_of seat.old.me.0.passes) }
        ensures table { (seat.new.table_id ≡ seat.old.table_id) × (seat.new.id ≡ seat.old.id) }
        ensures seat { IsSeat number seat.new.me }
        ensures known { first_of seat.new.me.0.passes ≡ with_hold stripe Shared (first_of seat.old.me.0.passes) }
    {
        self.table
            .shared
            .fetch_and::<Back>(seat, usize::from(stripe), !lock_bit(number));
    }
}
