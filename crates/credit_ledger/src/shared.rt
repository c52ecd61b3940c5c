//! The ledger that threads share, behind a lock of tickets.
ghost use Rattle.std.specs.Prelude.{◌≡◌, ◌+◌, ◌≤◌, ◌<◌, ◌^◌, ◌-◌, ◌++◌, ◌∷◌, [], ℕ, length, Some, IfOk, IfErr, OnOk, OnErr, IsOkUnless, IsTrue, ◌↔◌, All, List, map};
ghost use Rattle.atomic_table.specs.Seated.{TableId};
ghost use Rattle.credit_ledger.specs.declared.view.Call.{Call};
ghost use Rattle.credit_ledger.specs.declared.view.Stage.{Stage};
ghost use Rattle.credit_ledger.specs.declared.view.Step.{Step};
ghost use Rattle.credit_ledger.specs.declared.view.View.{View};
ghost use Rattle.credit_ledger.specs.declared.entry.Cover.{Cover};
ghost use Rattle.credit_ledger.specs.Entries.{entry_fault, IsSpanHeld};
ghost use Rattle.credit_ledger.specs.Histories.{entries_after, IsPossible, IsLegal, IsOver};
ghost use Rattle.credit_ledger.specs.Shares.{give_half};
ghost use Rattle.credit_ledger.specs.Seats.{seat_calls, newcomer, halved, told_of, joined_of, with_given, with_number, with_ticket, turn_taken, IsLater, HasTurn, IsCopy, Extends, AreClaims, AreSeatsApart, HasCallsOf, claim_of};

use crate::entry::{Cover, Entry, Span};
use crate::fault::LedgerFault;
use crate::ledger::Ledger;
use crate::rule::{
    Claims, Copies, Counts, Draw, Enters, Gathers, Hears, Lock, Looks, Notes, Serve, Settle, Sit,
    TakesIn,
};
use crate::view::View;
use atomic_table::Table;
use std::alloc::Global;
use std::hint::spin_loop;
use std::sync::Wait;
use std::thread::yield_now;

/// How often the next seat in line spins before it yields.
const SPINS: u32 = 64;

type Board = Table<Option<Ledger>, View, (), Lock, Global>;

type Place = atomic_table::Seat<Option<Ledger>, View>;

/// A ledger that several threads share. Each call on it takes the turn, which one seat has at a time; only
/// `split`, `news`, `again` and `hear` take no turn.
#[derive(Drop)]
pub struct SharedLedger {
    board: Board,
    ghost counts: { (board.shared.table_id.words ≡ 2) × (board.shared.table_id.slots ≡ 1) },
}

/// What one thread holds of a shared ledger: its calls, a history that it has seen, and a share of the right
/// to enter.
#[derive(Drop)]
pub struct Seat {
    place: Place,
    ghost stage: { place.me.0.stage ≡ Stage.Idle },
    ghost empty: { place.me.1 ≡ [] },
    ghost right: { 0 < length place.me.0.shares },
}

/// A history that a seat has seen, for another one to learn. It makes no calls, and has no share of the right
/// to enter.
#[derive(Drop)]
pub struct News {
    place: Place,
    ghost stage: { place.me.0.stage ≡ Stage.Idle },
    ghost empty: { place.me.1 ≡ [] },
    ghost no_right: { place.me.0.shares ≡ [] },
}

/// The reply to an accepted entry.
#[derive(Clone, Copy, Debug, PartialEq, Eq)]
pub struct Receipt {
    /// The entry's index.
    pub index: u32,
}

impl SharedLedger {
    /// Returns a ledger with no entry, and its first seat, which has seen no call. Fails only with
    /// `Memory`.
    pub fn new(alloc: Global) -> Result<(SharedLedger, Seat), LedgerFault>
        ensures seat { IfOk result (λ made. made.1.place.table_id ≡ made.0.board.shared.table_id) }
        ensures first { IfOk result (λ made. made.1.place.me.0 ≡ newcomer) }
        ensures memory_alone { IsOkUnless result LedgerFault.Memory }
    {
        let mut slots = Vec::new(alloc);
        let Ok(()) = slots.push(Some(Ledger::new(alloc))) else {
            return Err(LedgerFault::Memory);
        };
        match Table::new(alloc, &[0, 0], slots, &()) {
            Ok((board, place)) => Ok((SharedLedger { board }, Seat { place })),
            Err(_) => Err(LedgerFault::Memory),
        }
    }

    /// Adds an entry, and returns its index. Requires that the entry's path has at most 1,024 numbers.
    /// Fails as `Ledger::enter` does, by the entries that the call meets; if it fails, it returns the
    /// entry. It takes the turn, and ends it also if it fails.
    pub fn enter<R: Wait>(
        &self,
        wait: &R,
        seat: &mut Seat,
        entry: Entry,
    ) -> Result<Receipt, (Entry, LedgerFault)>
        requires seat { seat.old.place.table_id ≡ self.now.board.shared.table_id }
        requires depth { length entry.path ≤ 1024 }
        ensures seat { seat.new.place.table_id ≡ seat.old.place.table_id }
        ensures entered { IfOk result (λ receipt.
            Extends seat.old.place.me.0 (Call.Enter entry) receipt.index seat.new.place.me.0) }
        ensures looked { IfErr result (λ refusal.
            (length : ℕ) × Extends seat.old.place.me.0 Call.Look length seat.new.place.me.0) }
        ensures returned { IfErr result (λ refusal. refusal.0 ≡ entry) }
        ensures fault { IfErr result (λ refusal.
            refusal.1 ≡ entry_fault (entries_after seat.new.place.me.0.seen) entry) }
    {
        let ticket = draw(&self.board, wait, &mut seat.place);
        await_turn(&self.board, wait, &mut seat.place, ticket);
        match put(&self.board, &mut seat.place, entry) {
            Ok(index) => {
                self.board
                    .shared
                    .store::<Enters>(&mut seat.place, 1, ticket + 1);
                Ok(Receipt { index })
            }
            Err(refusal) => {
                self.board
                    .shared
                    .store::<Looks>(&mut seat.place, 1, ticket + 1);
                Err(refusal)
            }
        }
    }

    /// Returns how many entries there are, and whether these hold each child of the span with all its
    /// descendants. If so, no later entry is of one of these tasks. Requires that the span's path has at
    /// most 1,024 numbers. Fails only with `Memory`. It takes the turn, and ends it also if it fails.
    pub fn whole<R: Wait>(
        &self,
        wait: &R,
        seat: &mut Seat,
        span: &Span,
    ) -> Result<(u32, bool), LedgerFault>
        requires seat { seat.old.place.table_id ≡ self.now.board.shared.table_id }
        requires depth { length span.now.path ≤ 1024 }
        ensures seat { seat.new.place.table_id ≡ seat.old.place.table_id }
        ensures told { IfOk result (λ whole.
            Extends seat.old.place.me.0 Call.Look whole.0 seat.new.place.me.0) }
        ensures held { IfOk result (λ whole. IsTrue whole.1
            ↔ IsSpanHeld (entries_after seat.new.place.me.0.seen) span.now Cover.Descendants) }
        ensures over { IfOk result (λ whole. IsTrue whole.1
            → IsOver (entries_after seat.new.place.me.0.seen) span.now) }
        ensures looked { (length : ℕ) × Extends seat.old.place.me.0 Call.Look length seat.new.place.me.0 }
        ensures memory_alone { IsOkUnless result LedgerFault.Memory }
    {
        let ticket = draw(&self.board, wait, &mut seat.place);
        await_turn(&self.board, wait, &mut seat.place, ticket);
        let whole = held(&self.board, &mut seat.place, span);
        self.board
            .shared
            .store::<Looks>(&mut seat.place, 1, ticket + 1);
        whole
    }

    /// Returns a new seat, which has seen the same history and made no call. Its number is greater than
    /// that of the seat, than each that the seat knows to be given, and than that of each seat that made a
    /// call in this history. From then on the seat knows that this number is given, so a later split gives
    /// a greater one. Each share of the seat is cut in two: the seat keeps one half, and the new seat gets
    /// the other.
    pub fn split(&self, seat: &mut Seat) -> Seat
        requires seat { seat.old.place.table_id ≡ self.now.board.shared.table_id }
        ensures table { seat.new.place.table_id ≡ seat.old.place.table_id }
        ensures seat { seat.new.place.me ≡ (
          with_given (halved seat.old.place.me.0)
              (result.place.me.0.number + 1),
          seat.old.place.me.1,
        ) }
        ensures place { result.place.table_id ≡ seat.old.place.table_id }
        ensures copy { IsCopy seat.old.place.me.0 result.place.me.0 }
        ensures shares { result.place.me.0.shares ≡ map give_half seat.old.place.me.0.shares }
    {
        let place = self.board.shared.split_seat::<Copies>(&mut seat.place);
        Seat {
            place: settle(&self.board, &mut seat.place, place),
        }
    }

    /// Returns news of what the seat has seen. They have a number as a new seat has, and leave the seat its
    /// shares.
    pub fn news(&self, seat: &mut Seat) -> News
        requires seat { seat.old.place.table_id ≡ self.now.board.shared.table_id }
        ensures table { seat.new.place.table_id ≡ seat.old.place.table_id }
        ensures seat { seat.new.place.me ≡ (
          with_given seat.old.place.me.0
              (result.place.me.0.number + 1),
          seat.old.place.me.1,
        ) }
        ensures place { result.place.table_id ≡ seat.old.place.table_id }
        ensures copy { IsCopy seat.old.place.me.0 result.place.me.0 }
    {
        let place = self.board.shared.split_seat::<Notes>(&mut seat.place);
        News {
            place: settle(&self.board, &mut seat.place, place),
        }
    }

    /// Returns the same news again, for one more seat to learn. They have a number of their own.
    pub fn again(&self, news: &mut News) -> News
        requires news { news.old.place.table_id ≡ self.now.board.shared.table_id }
        ensures table { news.new.place.table_id ≡ news.old.place.table_id }
        ensures news { news.new.place.me ≡ (
          with_given news.old.place.me.0
              (result.place.me.0.number + 1),
          news.old.place.me.1,
        ) }
        ensures place { result.place.table_id ≡ news.old.place.table_id }
        ensures copy { IsCopy news.old.place.me.0 result.place.me.0 }
    {
        let place = self.board.shared.split_seat::<Notes>(&mut news.place);
        News {
            place: settle(&self.board, &mut news.place, place),
        }
    }

    /// Learns the history of these news, which are spent by that. What the seat has seen changes with its next
    /// call.
    pub fn hear(&self, seat: &mut Seat, news: News)
        requires seat { seat.old.place.table_id ≡ self.now.board.shared.table_id }
        requires news { news.place.table_id ≡ self.now.board.shared.table_id }
        ensures table { seat.new.place.table_id ≡ seat.old.place.table_id }
        ensures seat { seat.new.place.me
            ≡ (told_of seat.old.place.me.0 news.place.me.0, seat.old.place.me.1) }
    {
        let News { place } = news;
        self.board.shared.join_seat::<Hears>(&mut seat.place, place);
    }

    /// Learns the history of these news, which are spent by that, and returns how many entries there are. It
    /// takes the turn.
    pub fn meet<R: Wait>(&self, wait: &R, seat: &mut Seat, news: News) -> u32
        requires seat { seat.old.place.table_id ≡ self.now.board.shared.table_id }
        requires news { news.place.table_id ≡ self.now.board.shared.table_id }
        ensures seat { seat.new.place.table_id ≡ seat.old.place.table_id }
        ensures call { Extends (told_of seat.old.place.me.0 news.place.me.0) Call.Look result seat.new.place.me.0 }
    {
        self.hear(seat, news);
        self.look(wait, seat)
    }

    /// Takes in another seat, which is spent by that: what it has seen, its calls, and its shares. Returns how
    /// many entries there are. It takes the turn.
    pub fn join<R: Wait>(&self, wait: &R, seat: &mut Seat, other: Seat) -> u32
        requires seat { seat.old.place.table_id ≡ self.now.board.shared.table_id }
        requires other { other.place.table_id ≡ self.now.board.shared.table_id }
        ensures seat { seat.new.place.table_id ≡ seat.old.place.table_id }
        ensures call { Extends (joined_of seat.old.place.me.0 other.place.me.0) Call.Look result seat.new.place.me.0 }
    {
        take_in(&self.board, seat, other);
        self.look(wait, seat)
    }

    /// Returns the ledger after a history that begins with what each of these seats had seen, and that has
    /// of each seat exactly the calls that it made. No two of the seats have one number. The same holds of the
    /// seats that they took in; and if these seats have all shares, each entry was made by one of all these.
    /// It takes the turn a last time.
    pub fn close<R: Wait>(self, wait: &R, seats: Vec<Seat>) -> Ledger
        requires seats { All (λ seat. seat.place.table_id ≡ self.board.shared.table_id) seats.items }
        ensures { (history : List Step) × IsLegal history × (result ≡ entries_after history)
            × AreClaims history (map (λ seat. claim_of seat.place.me.0) seats.items)
            × AreSeatsApart (map (λ seat. claim_of seat.place.me.0) seats.items)
            × HasCallsOf history (map (λ seat. seat.place.me.0) seats.items) }
    {
        let (_, mut place) = self.board.shared.load_new_seat::<Sit>(0);
        let ticket = draw(&self.board, wait, &mut place);
        await_turn(&self.board, wait, &mut place, ticket);
        gather(&self.board, &mut place, seats);
        take(&self.board, &mut place)
    }

    /// Returns how many entries there are. It takes the turn.
    pub fn look<R: Wait>(&self, wait: &R, seat: &mut Seat) -> u32
        requires seat { seat.old.place.table_id ≡ self.now.board.shared.table_id }
        ensures seat { seat.new.place.table_id ≡ seat.old.place.table_id }
        ensures call { Extends seat.old.place.me.0 Call.Look result seat.new.place.me.0 }
    {
        let ticket = draw(&self.board, wait, &mut seat.place);
        await_turn(&self.board, wait, &mut seat.place, ticket);
        let len = count(&self.board, &mut seat.place);
        self.board
            .shared
            .store::<Looks>(&mut seat.place, 1, ticket + 1);
        len
    }
}

/// Lets a new seat learn its number, and the other one that this number is given.
fn settle(board: &Board, other: &mut Place, new: Place) -> Place
    requires board { (board.now.shared.table_id.words ≡ 2) × (board.now.shared.table_id.slots ≡ 1) }
    requires other { other.old.table_id ≡ board.now.shared.table_id }
    requires stage { other.old.me.0.stage ≡ Stage.Idle }
    requires new { new.table_id ≡ board.now.shared.table_id }
    requires fresh { new.me.0.stage ≡ Stage.Fresh }
    requires empty { new.me.1 ≡ [] }
    ensures other { other.new.table_id ≡ other.old.table_id }
    ensures given { other.new.me ≡ (with_given other.old.me.0 (result.me.0.number + 1), other.old.me.1) }
    ensures new { result.table_id ≡ new.table_id }
    ensures number { result.me ≡ (with_number new.me.0 result.me.0.number, new.me.1) }
    ensures alone { seat_calls result.me.0.number new.me.0.seen ≡ [] }
    ensures later { IsLater new.me.0 result.me.0.number }
{
    let mut place = new;
    let _ = board.shared.load::<Settle>(&mut place, 0);
    // The other seat learns the number from a third one, which is spent by that.
    let third = board.shared.split_seat::<Notes>(&mut place);
    board.shared.join_seat::<Counts>(other, third);
    place
}

/// Takes in another seat: what it has seen, its calls, and its shares.
fn take_in(board: &Board, seat: &mut Seat, other: Seat)
    requires board { (board.now.shared.table_id.words ≡ 2) × (board.now.shared.table_id.slots ≡ 1) }
    requires seat { seat.old.place.table_id ≡ board.now.shared.table_id }
    requires other { other.place.table_id ≡ board.now.shared.table_id }
    ensures table { seat.new.place.table_id ≡ seat.old.place.table_id }
    ensures seat { seat.new.place.me
        ≡ (joined_of seat.old.place.me.0 other.place.me.0, seat.old.place.me.1) }
{
    let Seat { place } = other;
    board.shared.join_seat::<TakesIn>(&mut seat.place, place);
}

/// Takes a ticket, and returns it. Does not return once the last ticket is drawn.
fn draw<R: Wait>(board: &Board, wait: &R, place: &mut Place) -> u64
    requires board { (board.now.shared.table_id.words ≡ 2) × (board.now.shared.table_id.slots ≡ 1) }
    requires place { place.old.table_id ≡ board.now.shared.table_id }
    requires stage { place.old.me.0.stage ≡ Stage.Idle }
    requires empty { place.old.me.1 ≡ [] }
    ensures place { place.new.table_id ≡ place.old.table_id }
    ensures ticket { place.new.me ≡ (with_ticket place.old.me.0 result, []) }
    ensures small { result < 2 ^ 64 - 1 }
{
    'tickets: for _ in wait.forever() {
        let next = board.shared.peek(0);
        if next < u64::MAX {
            let found = board
                .shared
                .compare_exchange::<Draw>(place, 0, next, next + 1);
            if found == next {
                return next;
            }
        } else {
            yield_now();
        }
    }
    0
}

/// Waits until the ticket is served.
fn await_turn<R: Wait>(board: &Board, wait: &R, place: &mut Place, ticket: u64)
    requires board { (board.now.shared.table_id.words ≡ 2) × (board.now.shared.table_id.slots ≡ 1) }
    requires place { place.old.table_id ≡ board.now.shared.table_id }
    requires stage { place.old.me.0.stage ≡ Stage.Waiting }
    requires ticket { place.old.me.0.ticket ≡ ticket }
    requires empty { place.old.me.1 ≡ [] }
    ensures place { place.new.table_id ≡ place.old.table_id }
    ensures turn { HasTurn place.old.me.0 place.new.me.0.seen }
    ensures view { place.new.me ≡ (turn_taken place.old.me.0 place.new.me.0.seen, (0, Some (entries_after place.new.me.0.seen)) ∷ []) }
{
    let mut spins = 0;
    'rounds: for _ in wait.forever() {
        let serving = board.shared.load::<Serve>(place, 1);
        if serving == ticket {
            return;
        }
        if ticket - serving == 1 && spins < SPINS {
            spins += 1;
            spin_loop();
        } else {
            yield_now();
        }
    }
}

/// Returns the length of the ledger that the place has.
fn count(board: &Board, place: &mut Place) -> u32
    requires place { place.old.table_id ≡ board.now.shared.table_id }
    requires ledger { place.old.me.1 ≡ (0, Some (entries_after place.old.me.0.seen)) ∷ [] }
    ensures place { place.new.table_id ≡ place.old.table_id }
    ensures view { place.new.me ≡ place.old.me }
    ensures count { result ≡ length (entries_after place.old.me.0.seen) }
{
    let Some(ledger) = place.slot_mut(&board.shared, 0) else {
        unreachable!()
    };
    ledger.len()
}

/// Adds an entry to the ledger that the place has, and returns its index. If it fails, it returns the
/// entry with the fault.
fn put(board: &Board, place: &mut Place, entry: Entry) -> Result<u32, (Entry, LedgerFault)>
    requires place { place.old.table_id ≡ board.now.shared.table_id }
    requires ledger { place.old.me.1 ≡ (0, Some (entries_after place.old.me.0.seen)) ∷ [] }
    requires depth { length entry.path ≤ 1024 }
    ensures place { place.new.table_id ≡ place.old.table_id }
    ensures entered { IfOk result (λ index. place.new.me ≡ (
      place.old.me.0,
      (
        0,
        Some
            (entries_after place.old.me.0.seen ++ entry ∷ []),
      ) ∷ [],
    )) }
    ensures index { IfOk result (λ index. index ≡ length (entries_after place.old.me.0.seen)) }
    ensures possible { OnOk result (IsPossible (entries_after place.old.me.0.seen) (Call.Enter entry)) }
    ensures unchanged { OnErr result (place.new.me ≡ place.old.me) }
    ensures returned { IfErr result (λ refusal. refusal.0 ≡ entry) }
    ensures fault { IfErr result (λ refusal. refusal.1 ≡ entry_fault (entries_after place.old.me.0.seen) entry) }
{
    let Some(ledger) = place.slot_mut(&board.shared, 0) else {
        unreachable!()
    };
    ledger.enter(entry)
}

/// Returns the length of the ledger that the place has, and whether all its entries hold the span. Fails
/// only with `Memory`.
fn held(board: &Board, place: &mut Place, span: &Span) -> Result<(u32, bool), LedgerFault>
    requires place { place.old.table_id ≡ board.now.shared.table_id }
    requires ledger { place.old.me.1 ≡ (0, Some (entries_after place.old.me.0.seen)) ∷ [] }
    requires depth { length span.now.path ≤ 1024 }
    ensures place { place.new.table_id ≡ place.old.table_id }
    ensures view { place.new.me ≡ place.old.me }
    ensures count { IfOk result (λ whole. whole.0 ≡ length (entries_after place.old.me.0.seen)) }
    ensures held { IfOk result (λ whole.
        IsTrue whole.1 ↔ IsSpanHeld (entries_after place.old.me.0.seen) span.now Cover.Descendants) }
    ensures memory_alone { IsOkUnless result LedgerFault.Memory }
{
    let Some(ledger) = place.slot_mut(&board.shared, 0) else {
        unreachable!()
    };
    let len = ledger.len();
    let is_held = ledger.holds(len, span, Cover::Descendants)?;
    Ok((len, is_held))
}

/// Takes in the shares and the calls of these seats.
fn gather(board: &Board, place: &mut Place, seats: Vec<Seat>)
    requires board { (board.now.shared.table_id.words ≡ 2) × (board.now.shared.table_id.slots ≡ 1) }
    requires place { place.old.table_id ≡ board.now.shared.table_id }
    requires stage { place.old.me.0.stage ≡ Stage.Turn }
    requires own { place.old.me.0.own ≡ [] }
    requires shares { place.old.me.0.shares ≡ [] }
    requires claims { place.old.me.0.claims ≡ [] }
    requires seats { All (λ seat. seat.place.table_id ≡ board.now.shared.table_id) seats.items }
    ensures place { place.new.table_id ≡ place.old.table_id }
    ensures slots { place.new.me.1 ≡ place.old.me.1 }
    ensures seen { place.new.me.0.seen ≡ place.old.me.0.seen }
    ensures calls { HasCallsOf place.old.me.0.seen (map (λ seat. seat.place.me.0) seats.items) }
{
    let mut seats = seats;
    'seats: while let Some(seat) = seats.pop() {
        let Seat { place: other } = seat;
        board.shared.join_seat::<Gathers>(place, other);
    }
    board.shared.load::<Claims>(place, 0);
}

/// Returns the ledger that the place has, and leaves none.
fn take(board: &Board, place: &mut Place) -> Ledger
    requires place { place.old.table_id ≡ board.now.shared.table_id }
    requires ledger { place.old.me.1 ≡ (0, Some (entries_after place.old.me.0.seen)) ∷ [] }
    ensures { result ≡ entries_after place.old.me.0.seen }
{
    let Some(ledger) = board.shared.exchange(place, 0, None) else {
        unreachable!()
    };
    ledger
}
