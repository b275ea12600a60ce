//! Items that need no step are put in their place.
ghost use Rattle.std.specs.Prelude.{◌≡◌, ◌⊎◌, ◌<◌, ◌≤◌, true, false, IfOk, IsSome, OnErr, OnOk, length, None};

use crate::due::Due;
use crate::line::LONG_LINE;
use crate::session::Session;
use container_meta::{Kind, OpenContainer};
use std::alloc::AllocError;

impl Session {
    ghost use Rattle.ingest_session.specs.State.{HasItem, IsClosed, turn_node};
    ghost use Rattle.ingest_session.specs.Due.{HasTurn, due_in, needs_no_step, puts_aside, turn_in};
    ghost use Rattle.ingest_session.specs.History.{KeepsOpen, Places};
    ghost use Rattle.ingest_session.specs.Moving.{IsClosing, IsTurned};
    ghost use Rattle.ingest_session.specs.Settling.{Passes, Settles, seen};
    ghost use Rattle.ingest_session.specs.Work.{to_do};
    ghost use Rattle.ingest_session.specs.Told.{IsPlaced, IsSettled, put_aside, set_aside};

    /// Finds out whose turn it is.
    fn take_turn(&mut self)
        requires waits { self.old.waits ≡ false }
        ensures { IsTurned self.old self.new }
    {
        self.turn = if self.node_is_due() {
            Kind::Tree
        } else {
            Kind::Leaf
        };
    }

    /// Gives the builder the first segment of the queue, where it doesn't have it. Where there is no memory, nothing changes.
    fn reach(&mut self) -> Result<(), AllocError>
        requires some { 0 < length self.old.queue }
        requires short { length self.old.line < LONG_LINE }
        ensures ahead { OnOk result (IsSome self.new.ahead) }
        ensures settles { Settles self.old self.new }
        ensures err { OnErr result (self.new ≡ self.old) }
        ensures others { self.new ≡ record self.old { ahead = self.new.ahead; built = self.new.built } }
    {
        if self.ahead.is_some() {
            return Ok(());
        }
        self.advance()?;
        self.sound();
        Ok(())
    }

    /// Makes the tree whole, where the first segment of the queue is the last. Where there is no memory, nothing changes.
    fn close(&mut self) -> Result<(), AllocError>
        requires ahead { IsSome self.old.ahead }
        ensures ok { OnOk result ((self.new ≡ self.old) ⊎ IsClosing self.old self.new) }
        ensures closed { OnOk result (IsClosed self.new) }
        ensures err { OnErr result (self.new ≡ self.old) }
    {
        if !self.ended || self.queue.len() != 1 || self.top.is_some() {
            return Ok(());
        }
        let top = self.builder.finish()?;
        self.top = Some(top);
        Ok(())
    }

    /// Tries to put the node whose turn it is in its place. Where there is no memory, nothing changes.
    fn pass_node(&mut self) -> Result<bool, AllocError>
        requires node { IsSome (turn_node self.old) }
        requires turn { self.old.turn ≡ turn_in self.old }
        requires waits { self.old.waits ≡ false }
        ensures ok { IfOk result (λ passed. Passes passed self.old self.new) }
        ensures settles { Settles self.old self.new }
        ensures seen { seen self.new ≡ seen self.old }
    {
        self.spell()?;
        self.sound();
        if !self.item_is_there() {
            return Ok(false);
        }
        self.place_node();
        self.sound();
        Ok(true)
    }

    /// Tries to put the first segment of the queue in its place.
    fn pass_front(&mut self) -> Result<bool, AllocError>
        requires some { 0 < length self.old.queue }
        requires node { turn_node self.old ≡ None }
        requires turn { self.old.turn ≡ turn_in self.old }
        requires waits { self.old.waits ≡ false }
        ensures ok { IfOk result (λ passed. Passes passed self.old self.new) }
        ensures settles { Settles self.old self.new }
        ensures seen { seen self.new ≡ seen self.old }
    {
        self.reach()?;
        self.close()?;
        self.sound();
        if !self.item_is_there() {
            return Ok(false);
        }
        self.place_front(1);
        self.sound();
        Ok(true)
    }

    /// Tries to put the item whose turn it is in its place.
    fn pass_item(&mut self) -> Result<bool, AllocError>
        requires waits { self.old.waits ≡ false }
        ensures ok { IfOk result (λ passed. Passes passed self.old self.new) }
        ensures settles { Settles self.old self.new }
        ensures seen { seen self.new ≡ seen self.old }
    {
        self.take_turn();
        self.sound();
        if self.turn_node().is_some() {
            return self.pass_node();
        }
        if self.queue.len() == 0 {
            return Ok(false);
        }
        self.pass_front()
    }

    /// The open container of data is aside, and an empty one in its place; no item waits any more. Where there is no memory, nothing
    /// changes.
    fn put_aside(&mut self) -> Result<(), AllocError>
        requires puts { puts_aside self.old ≡ true }
        ensures ok { OnOk result (self.new ≡ record (put_aside self.old) { waits = false }) }
        ensures err { OnErr result (self.new ≡ self.old) }
    {
        let empty = OpenContainer::new(self.alloc, Kind::Leaf)?;
        self.aside.push(&mut self.leaves, empty)?;
        self.waits = false;
        Ok(())
    }

    /// Sets the open container of data aside; an item that waited goes into the new one and to its place.
    fn set_aside(&mut self) -> Result<(), AllocError>
        requires puts { puts_aside self.old ≡ true }
        ensures ok { OnOk result (self.new ≡ set_aside self.old) }
        ensures err { OnErr result (self.new ≡ self.old) }
    {
        let waits = self.waits;
        self.put_aside()?;
        if waits {
            self.add(1);
        }
        Ok(())
    }

    /// Tries to set the open container of data aside.
    fn make_way(&mut self) -> Result<bool, AllocError>
        requires placed { IsPlaced self.old }
        ensures less { IfOk result (λ passed. passed ≡ true → to_do self.new < to_do self.old) }
        ensures settled { IfOk result (λ passed. passed ≡ false → IsSettled self.new) }
        ensures settles { Settles self.old self.new }
        ensures seen { seen self.new ≡ seen self.old }
    {
        self.sound();
        if !self.puts_aside() {
            return Ok(false);
        }
        self.set_aside()?;
        self.sound();
        Ok(true)
    }

    /// Tries to put the item whose turn it is in its place, or to set the open container of data aside. An item that waits is left
    /// where it is.
    fn pass_one(&mut self) -> Result<bool, AllocError>
        ensures less { IfOk result (λ passed. passed ≡ true → to_do self.new < to_do self.old) }
        ensures settled { IfOk result (λ passed. passed ≡ false → IsSettled self.new) }
        ensures settles { Settles self.old self.new }
        ensures seen { seen self.new ≡ seen self.old }
    {
        self.sound();
        if self.waits {
            return self.make_way();
        }
        if self.pass_item()? {
            return Ok(true);
        }
        self.make_way()
    }

    /// Puts items in their place, up to one that needs a step, and sets containers aside that are to be sealed.
    fn settle(&mut self) -> Result<(), AllocError>
        ensures ok { OnOk result (IsSettled self.new) }
        ensures settles { Settles self.old self.new }
        ensures seen { seen self.new ≡ seen self.old }
    {
        while self.pass_one()? {}
        Ok(())
    }

    /// The step of the store that is due. Items that need none are put in their place before, and containers that are to be sealed are
    /// set aside. It fails for want of memory alone; some of that may be done then, and `queued` answers as before.
    pub fn due(&mut self) -> Result<Due, AllocError>
        ensures due { IfOk result (λ due. due ≡ due_in self.new) }
        ensures ok { OnOk result (IsSettled self.new) }
        ensures places { Places self.old self.new }
        ensures keeps { KeepsOpen self.old self.new }
        ensures work { to_do self.new ≤ to_do self.old }
        ensures seen { OnErr result (seen self.new ≡ seen self.old) }
        ensures unseen { OnOk result (self.new.unseen ≡ 0) }
    {
        self.settle()?;
        self.unseen = 0;
        self.sound();
        Ok(self.due_now())
    }
}
