//! Turns: a ticket is drawn, served, and passed on.
ghost use Rattle.std.specs.Prelude.{◌≡◌, ◌<◌, ◌≤◌, ◌+◌, ◌-◌, ◌%◌, ◌^◌, ◌++◌, ◌∷◌, [], ℕ, Some, None, IfOk, IfErr, length};
ghost use Rattle.std.specs.Fn.{CalledAtMut};
ghost use Rattle.turn_lock.specs.declared.history.Stage.TheVariants.{Waits, InTurn};
ghost use Rattle.turn_lock.specs.History.{turn_of, turns_by};
ghost use Rattle.turn_lock.specs.Plays.{Draws, IsServed, ticket_of};
ghost use Rattle.turn_lock.specs.Rule.{first_view};
ghost use Rattle.turn_lock.specs.Lock.{Ends, Rests, IsSamePass, TakesTurn, HasTurn, Joins, Splits, SplitsNone, lock_id, own_of, resting, resting_at, with_second};

use crate::booked::Booked;
use crate::history::{Home, View};
use crate::lock::{LINES, MOST_PASSES, NewPass, SERVED, StillOpen, TICKETS, TurnLock, TurnPass};
use crate::plays::{Draw, Give, Look, Meet, PassOn, Post};
use atomic_table::{Refused, Table};
use std::alloc::Global;
use std::array::from_fn;
use std::hint::spin_loop;
use std::snapshot::Snapshot;
use std::sync::Wait;
use std::sync::atomic::{AtomicU64, Ordering};

// How often a pass looks which ticket is served, as its turn comes, before it sleeps: most turns take less time than a thread takes to be
// woken. Between two looks the processor pauses.
const LOOKS: u32 = 2_000;

// A pass that is further from its turn than so many sleeps at once. It is woken as it comes so near, so that it looks as its turn comes.
const NEAR: u64 = 2;

// What a bell says: its pass sleeps, or is about to; or nobody waits for it.
const ASLEEP: u64 = 1;

const AWAKE: u64 = 0;

// ---- the parts of a turn

impl<C: Booked> TurnLock<C> {
    // The bell of a ticket. Of those that are out at once no two have one; as 2^64 is a multiple of how many bells there are, this is so
    // also where the numbers of tickets begin again.
    fn bell(&self, ticket: u64) -> &AtomicU64 {
        &self.bells[(ticket % MOST_PASSES) as usize]
    }

    // Wakes the pass that waits with a ticket, where it sleeps.
    fn ring(&self, ticket: u64) {
        let bell = self.bell(ticket);
        if bell.load(Ordering::SeqCst) != AWAKE {
            bell.store(AWAKE, Ordering::SeqCst);
            bell.wake_one();
        }
    }

    // Draws a ticket.
    fn draw(&self, pass: &mut TurnPass<C>) -> u64
        requires pass { pass.old.table_id ≡ lock_id self.now }
        requires rests { Rests pass.old }
        ensures same { IsSamePass pass.old pass.new }
        ensures drawn { Draws pass.old.me result pass.new.me }
    {
        self.table.shared.fetch_add::<Draw>(pass, TICKETS, 1)
    }

    // Waits until a ticket is served: looks for a while once it is near, and else sleeps until its bell is rung. It says so at its bell,
    // and looks once more, before it sleeps: so whoever serves its ticket finds it asleep, or it finds its ticket served. Which one is
    // meant is known, since at most `MOST_PASSES` are out at once.
    fn wait<R: Wait>(&self, rt: &R, pass: &mut TurnPass<C>, ticket: u64)
        requires pass { pass.old.table_id ≡ lock_id self.now }
        requires waits { (n : ℕ) × (pass.old.me.0.stage ≡ Waits n) × (n % 2 ^ 64 ≡ ticket) × (pass.old.me.1 ≡ []) }
        ensures same { IsSamePass pass.old pass.new }
        ensures served { IsServed C.makes pass.old.me.0 (ticket_of pass.old.me.0.stage) pass.new.me }
    {
        let bell = self.bell(ticket);
        let mut looks = LOOKS;
        let mut told = false;
        for _ in rt.forever() {
            let served = self.table.shared.load::<Look>(pass, SERVED);
            if served == ticket {
                return;
            }
            if looks > 0 && ticket.wrapping_sub(served) <= NEAR {
                looks -= 1;
                spin_loop();
            } else if !told {
                bell.store(ASLEEP, Ordering::SeqCst);
                told = true;
            } else {
                bell.park(rt, ASLEEP as u32);
                told = false;
                looks = LOOKS;
            }
        }
        unreachable!()
    }

    // Waits for its turn, and takes the value out.
    fn take_turn<R: Wait>(&self, rt: &R, pass: &mut TurnPass<C>) -> Home<C>
        requires pass { pass.old.table_id ≡ lock_id self.now }
        requires rests { Rests pass.old }
        ensures same { IsSamePass pass.old pass.new }
        ensures took { TakesTurn C.makes pass.old.me.0 result pass.new.me }
    {
        let ticket = self.draw(pass);
        self.wait(rt, pass, ticket);
        match self.table.shared.exchange(pass, 0, None) {
            Some(home) => home,
            None => unreachable!(),
        }
    }

    // Serves the next ticket, once the value is back in its slot, and wakes its pass, and the one that is near now.
    fn pass_on(&self, pass: &mut TurnPass<C>)
        requires pass { pass.old.table_id ≡ lock_id self.now }
        requires turn { (n : ℕ) × (found : Home C) × (pass.old.me.0.stage ≡ InTurn n found)
            × (pass.old.me.1 ≡ (0, Some found) ∷ []) }
        ensures same { IsSamePass pass.old pass.new }
        ensures rests { pass.new.me ≡ resting pass.old.me.0 pass.old.me.0.seen pass.old.me.0.numbers }
    {
        let ended = self.table.shared.fetch_add::<PassOn>(pass, SERVED, 1);
        let served = ended.wrapping_add(1);
        self.ring(served);
        self.ring(served.wrapping_add(NEAR));
    }

    // Ends a turn in which the pass made of the value what it may. The turn stands in the history from then on.
    fn end_turn(&self, pass: &mut TurnPass<C>, home: Home<C>)
        requires pass { pass.old.table_id ≡ lock_id self.now }
        requires made { (by : ℕ) × (found : Home C) × HasTurn by found pass.old.me × C.makes by found.value home.value
            × (home.given ≡ found.given) }
        ensures same { IsSamePass pass.old pass.new }
        ensures seen { pass.new.me
            ≡ resting pass.old.me.0 (pass.old.me.0.seen ++ turn_of (own_of pass.old.me.0.numbers) home.value ∷ []) pass.old.me.0.numbers }
    {
        let lines = home.value.lines();
        let empty = self.table.shared.exchange(pass, 0, Some(home));
        let None = empty else { unreachable!() };
        self.table.shared.store::<Post>(pass, LINES, lines);
        self.pass_on(pass);
    }

    // Ends a turn in which nothing was changed. It is none of the history.
    fn end_idly(&self, pass: &mut TurnPass<C>, home: Home<C>)
        requires pass { pass.old.table_id ≡ lock_id self.now }
        requires turn { (by : ℕ) × HasTurn by home pass.old.me }
        ensures same { IsSamePass pass.old pass.new }
        ensures rests { pass.new.me ≡ resting pass.old.me.0 pass.old.me.0.seen pass.old.me.0.numbers }
    {
        let empty = self.table.shared.exchange(pass, 0, Some(home));
        let None = empty else { unreachable!() };
        self.pass_on(pass);
    }

    // Ends a turn in which the next number was given out, which the pass holds beside its own, and tells how many lines the book has.
    fn end_with_number(&self, pass: &mut TurnPass<C>, home: Home<C>) -> u64
        requires pass { pass.old.table_id ≡ lock_id self.now }
        requires given { (by : ℕ) × (found : Home C) × HasTurn by found pass.old.me × (home.value ≡ found.value)
            × (home.given ≡ found.given + 1) × (found.given < MOST_PASSES) }
        ensures lines { result ≡ C.lines home.value }
        ensures same { IsSamePass pass.old pass.new }
        ensures number { pass.new.me
            ≡ resting_at pass.old.me.0 pass.old.me.0.seen (with_second pass.old.me.0.numbers (home.given - 1)) home.given }
        ensures fresh { turns_by (home.given - 1) pass.old.me.0.seen ≡ 0 }
    {
        let lines = home.value.lines();
        let empty = self.table.shared.exchange(pass, 0, Some(home));
        let None = empty else { unreachable!() };
        self.table.shared.store::<Give>(pass, LINES, lines);
        self.pass_on(pass);
        lines
    }
}

// ---- what callers do with a pass

impl<C: Booked> TurnLock<C> {
    /// A lock over a value, and its first pass, with the number 0. It fails for want of memory alone, and hands the value back then.
    pub fn new(alloc: Global, value: C) -> Result<(TurnLock<C>, TurnPass<C>), C>
        ensures made { IfOk result (λ t. (t.1.table_id ≡ lock_id t.0) × (t.1.me ≡ (first_view value, []))) }
        ensures refused { IfErr result (λ back. back ≡ value) }
    {
        let lines = value.lines();
        let about = Snapshot::of(&value);
        let Ok(mut slots) = Vec::with_capacity(alloc, 1) else {
            return Err(value);
        };
        slots.push_reserved(Some(Home { given: 1, value }));
        match Table::new(alloc, &[0, 0, lines], slots, &about) {
            Ok((table, pass)) => Ok((
                TurnLock {
                    table,
                    bells: from_fn(|_| AtomicU64::new(0)),
                },
                pass,
            )),
            Err(Refused { slots }) => Err(taken_back(slots)),
        }
    }

    /// Waits for the turn of a pass of this lock, and lends the value to `f`, which makes of it what a turn under the number of
    /// the pass may. The turn stands in the history from then on, and the pass has seen all of it.
    pub fn with_turn<T, F: FnMut(&mut C) -> T, R: Wait>(
        &self,
        rt: &R,
        pass: &mut TurnPass<C>,
        f: &mut F,
    ) -> T
        requires pass { pass.old.table_id ≡ lock_id self.now }
        requires rests { Rests pass.old }
        requires callable { (x : _) → F.pre f.old x }
        requires makes { (found left : C) (made : T) (after : F) → CalledAtMut F.FnMut f.old found made after left
            → C.makes (own_of pass.old.me.0.numbers) found left }
        ensures same { IsSamePass pass.old pass.new }
        ensures turn { (home : Home C) × (left : C) × (w : _) × TakesTurn C.makes pass.old.me.0 home w
            × CalledAtMut F.FnMut f.old home.value result f.new left
            × (pass.new.me ≡ resting w.0 (w.0.seen ++ turn_of (own_of w.0.numbers) left ∷ []) w.0.numbers) }
    {
        let Home { given, mut value } = self.take_turn(rt, pass);
        let made = f(&mut value);
        self.end_turn(pass, Home { given, value });
        made
    }

    /// Another pass of this lock, with the next number: it has seen what this one has seen then. Where `MOST_PASSES` numbers were
    /// given out there is none; then it says how many lines the book has after the history that the pass has seen. It waits for a turn,
    /// which is none of the history.
    pub fn split_pass<R: Wait>(&self, rt: &R, pass: &mut TurnPass<C>) -> Result<NewPass<C>, u64>
        requires pass { pass.old.table_id ≡ lock_id self.now }
        requires rests { Rests pass.old }
        ensures same { IsSamePass pass.old pass.new }
        ensures other { IfOk result (λ other. (other.pass.table_id ≡ pass.old.table_id) × (other.number < MOST_PASSES)) }
        ensures split { IfOk result (λ other. Splits C.makes C.lines pass.old.me.0 other.number other.lines pass.new.me other.pass.me) }
        ensures none { IfErr result (λ lines. SplitsNone C.makes C.lines pass.old.me.0 lines pass.new.me) }
    {
        let mut home = self.take_turn(rt, pass);
        if home.given >= MOST_PASSES {
            let lines = home.value.lines();
            self.end_idly(pass, home);
            return Err(lines);
        }
        let number = home.given;
        home.given += 1;
        let lines = self.end_with_number(pass, home);
        Ok(NewPass {
            pass: self.table.shared.split_seat::<Give>(pass),
            number,
            lines,
        })
    }

    /// Takes in what another pass of this lock has seen, and its numbers. One of the two has seen a beginning of what the other has
    /// seen. It waits for nothing.
    pub fn join_pass(&self, pass: &mut TurnPass<C>, other: TurnPass<C>)
        requires pass { pass.old.table_id ≡ lock_id self.now }
        requires rests { Rests pass.old }
        requires other { (other.table_id ≡ pass.old.table_id) × Rests other }
        ensures same { IsSamePass pass.old pass.new }
        ensures joined { Joins pass.old.me.0 other.me.0 pass.new.me }
    {
        self.table.shared.join_seat::<Meet>(pass, other);
        self.table.shared.load::<Meet>(pass, TICKETS);
    }
}

// What was to lie in the slot.
fn taken_back<C>(mut slots: Vec<Option<Home<C>>>) -> C
    requires { (home : Home C) × (slots.items ≡ Some home ∷ []) }
    ensures { (home : Home C) → slots.items ≡ Some home ∷ [] → result ≡ home.value }
{
    let Some(slot) = slots.pop() else {
        unreachable!()
    };
    let Some(Home { given: _, value }) = slot else {
        unreachable!()
    };
    slots.destroy_empty();
    value
}

impl<C: Booked + Drop> TurnLock<C> {
    /// Waits for a last turn, and gives the value that it finds, where the pass has all numbers; else gives lock and pass back. It is
    /// told how many numbers the pass has.
    pub fn close<R: Wait>(self, rt: &R, pass: TurnPass<C>, numbers: u64) -> Result<C, StillOpen<C>>
        requires pass { pass.table_id ≡ lock_id self }
        requires rests { Rests pass }
        requires numbers { numbers ≡ length pass.me.0.numbers }
        ensures ended { IfOk result (λ value. Ends C.makes pass.me.0 value) }
        ensures same { IfErr result (λ back. (lock_id back.lock ≡ lock_id self) × IsSamePass pass back.pass) }
        ensures others { IfErr result (λ back. (1 ≤ back.others)
            × ((home : Home C) × (w : _) × TakesTurn C.makes pass.me.0 home w × (back.others + numbers ≡ home.given)
            × (back.lines ≡ C.lines home.value) × (back.pass.me ≡ resting w.0 w.0.seen w.0.numbers))) }
    {
        let mut pass = pass;
        let home = self.take_turn(rt, &mut pass);
        if home.given > numbers {
            let others = home.given - numbers;
            let book = home.value.lines();
            self.end_idly(&mut pass, home);
            return Err(StillOpen {
                lock: self,
                pass,
                others,
                lines: book,
            });
        }
        Ok(home.value)
    }
}
