// The steps of a seat at the table of its room.
ghost use Rattle.std.specs.Prelude.{◌≡◌, ◌≢◌, ℕ, ◌^◌, ◌<◌, true, false, [], ◌∷◌, Some, None, IfSome};
ghost use Rattle.rv_book.specs.Book.{Book, size, with_entry, Extends};
ghost use Rattle.rv_book.specs.declared.entry.Entry.{Entry};
ghost use Rattle.rv_history.specs.Machine.{Adds};
ghost use Rattle.rv_history.specs.Served.{IsNoClosing, Next, Settles};
ghost use Rattle.rv_desk.specs.DeskStates.{DeskState};
ghost use Rattle.rv_room.specs.Following.{FollowsAll, KeeperFollows};
ghost use Rattle.rv_room.specs.Ends.{end_view, held_view};
ghost use Rattle.rv_room.specs.Rule.{IsOf};
ghost use Rattle.rv_room.specs.Views.{IsIdle, entered, grown, noted, waiting, on_turn, with_keeper};

use crate::boxed_desk::BoxedDesk;
use crate::room::Room;
use crate::rule::{CountMade, CountSettled, NoteKeeper, NoteSettled};
use crate::seat::Token;
use crate::waiting::TURNS;
use rv_keeper::Keeper;
use std::sync::Wait;

// The word that counts the entries.
const ENTRIES: usize = 2;

// Whether two lengths differ.
fn differs(before: u32, now: u32) -> bool
    ensures yes { result ≡ true → now ≢ before }
    ensures no { result ≡ false → now ≡ before }
{
    now != before
}

impl<K: Keeper> Room<K> {
    // Takes the desk out of its slot.
    fn take_out(&self, token: &mut Token<K>) -> BoxedDesk<K>
        requires table { token.old.table_id ≡ self.now.table.shared.table_id }
        requires out { (d : DeskState K) × (token.old.me.1 ≡ (0, Some d) ∷ []) }
        ensures same { (token.new.table_id ≡ token.old.table_id) × (token.new.id ≡ token.old.id) }
        ensures desk { token.old.me.1 ≡ (0, Some result) ∷ [] }
        ensures empty { token.new.me ≡ (token.old.me.0, (0, None) ∷ []) }
    {
        let Some(desk) = self.table.shared.exchange(token, 0, None) else {
            unreachable!()
        };
        desk
    }

    // Puts the desk into its slot.
    fn put_home(&self, token: &mut Token<K>, desk: BoxedDesk<K>)
        requires table { token.old.table_id ≡ self.now.table.shared.table_id }
        requires empty { token.old.me.1 ≡ (0, None) ∷ [] }
        ensures same { (token.new.table_id ≡ token.old.table_id) × (token.new.id ≡ token.old.id) }
        ensures desk { token.new.me ≡ (token.old.me.0, (0, Some desk) ∷ []) }
    {
        let before = self.table.shared.exchange(token, 0, Some(desk));
        let None = before else { unreachable!() };
    }

    // Counts the entry that was in doubt.
    fn count_settled(&self, token: &mut Token<K>)
        requires table { token.old.table_id ≡ self.now.table.shared.table_id }
        requires doubt { (e : Entry) × (token.old.me.0.turns ≡ 1) × (token.old.me.0.doubt ≡ Some (Next.entry e)) × (size (with_entry token.old.me.0.book e) < 2 ^ 63) }
        ensures same { (token.new.table_id ≡ token.old.table_id) × (token.new.id ≡ token.old.id) }
        ensures entered { (e : Entry) → token.old.me.0.doubt ≡ Some (Next.entry e) → token.new.me ≡ (entered token.old.me.0 (with_entry token.old.me.0.book e), token.old.me.1) }
    {
        self.table
            .shared
            .fetch_add::<CountSettled>(token, ENTRIES, 1);
    }

    // Counts the entry that was in doubt, where it was entered: the settled book is one entry longer than the seat's.
    fn count_settled_if(&self, token: &mut Token<K>, came: bool)
        requires table { token.old.table_id ≡ self.now.table.shared.table_id }
        requires doubt { came ≡ true → (e : Entry) × (token.old.me.0.turns ≡ 1) × (token.old.me.0.doubt ≡ Some (Next.entry e)) × (size (with_entry token.old.me.0.book e) < 2 ^ 63) }
        ensures same { (token.new.table_id ≡ token.old.table_id) × (token.new.id ≡ token.old.id) }
        ensures entered { came ≡ true → (e : Entry) → token.old.me.0.doubt ≡ Some (Next.entry e) → token.new.me ≡ (entered token.old.me.0 (with_entry token.old.me.0.book e), token.old.me.1) }
        ensures not { came ≡ false → token.new.me ≡ token.old.me }
    {
        if came {
            self.count_settled(token);
        }
    }

    // Counts the entry that the step made.
    fn count_made(&self, token: &mut Token<K>)
        requires table { token.old.table_id ≡ self.now.table.shared.table_id }
        requires grown { (d : DeskState K) × (e : Entry) × (token.old.me.1 ≡ (0, Some d) ∷ []) × (token.old.me.0.turns ≡ 1) × (d.book ≡ with_entry token.old.me.0.book e) × (size d.book < 2 ^ 63) }
        ensures same { (token.new.table_id ≡ token.old.table_id) × (token.new.id ≡ token.old.id) }
        ensures counted { (d : DeskState K) → token.old.me.1 ≡ (0, Some d) ∷ [] → token.new.me ≡ (grown token.old.me.0 d.book, token.old.me.1) }
    {
        self.table.shared.fetch_add::<CountMade>(token, ENTRIES, 1);
    }

    // Counts the entry that the step made, if it made one.
    fn count_made_if(&self, token: &mut Token<K>, made: bool)
        requires table { token.old.table_id ≡ self.now.table.shared.table_id }
        requires grown { made ≡ true → (d : DeskState K) × (e : Entry) × (token.old.me.1 ≡ (0, Some d) ∷ []) × (token.old.me.0.turns ≡ 1) × (d.book ≡ with_entry token.old.me.0.book e) × (size d.book < 2 ^ 63) }
        ensures same { (token.new.table_id ≡ token.old.table_id) × (token.new.id ≡ token.old.id) }
        ensures counted { made ≡ true → (d : DeskState K) → token.old.me.1 ≡ (0, Some d) ∷ [] → token.new.me ≡ (grown token.old.me.0 d.book, token.old.me.1) }
        ensures not { made ≡ false → token.new.me ≡ token.old.me }
    {
        if made {
            self.count_made(token);
        }
    }

    // Looks at the desk after it has settled and stepped.
    fn note_settled(&self, token: &mut Token<K>)
        requires table { token.old.table_id ≡ self.now.table.shared.table_id }
        requires carries { (d : DeskState K) × (token.old.me.1 ≡ (0, Some d) ∷ []) × (token.old.me.0.turns ≡ 1) × IfSome token.old.me.0.keeper (λ keeper. KeeperFollows K.Keeper keeper d.keeper) }
        ensures same { (token.new.table_id ≡ token.old.table_id) × (token.new.id ≡ token.old.id) }
        ensures noted { (d : DeskState K) → token.old.me.1 ≡ (0, Some d) ∷ [] → token.new.me ≡ (noted token.old.me.0 d.doubt (Some d.keeper), token.old.me.1) }
    {
        self.table.shared.load::<NoteSettled>(token, TURNS);
    }

    // Looks at the desk after it could not settle.
    fn note_keeper(&self, token: &mut Token<K>)
        requires table { token.old.table_id ≡ self.now.table.shared.table_id }
        requires carries { (d : DeskState K) × (token.old.me.1 ≡ (0, Some d) ∷ []) × (token.old.me.0.turns ≡ 1) × IfSome token.old.me.0.keeper (λ keeper. KeeperFollows K.Keeper keeper d.keeper) }
        ensures same { (token.new.table_id ≡ token.old.table_id) × (token.new.id ≡ token.old.id) }
        ensures noted { (d : DeskState K) → token.old.me.1 ≡ (0, Some d) ∷ [] → token.new.me ≡ (with_keeper token.old.me.0 (Some d.keeper), token.old.me.1) }
    {
        self.table.shared.load::<NoteKeeper>(token, TURNS);
    }

    // Waits for the next turn and takes the desk.
    pub(crate) fn begin(&self, rt: &impl Wait, token: &mut Token<K>) -> BoxedDesk<K>
        requires table { token.old.table_id ≡ self.now.table.shared.table_id }
        requires idle { IsIdle token.old.me.0 × (0 < token.old.me.0.parts) × (token.old.me.1 ≡ []) }
        ensures same { (token.new.table_id ≡ token.old.table_id) × (token.new.id ≡ token.old.id) }
        ensures of { IsOf K.Keeper token.old.me.0 result }
        ensures begins { Extends result.book token.old.me.0.seen }
        ensures later { FollowsAll K.Keeper token.old.me.0.after result.keeper }
        ensures view { (t : ℕ) × (token.new.me ≡ (on_turn K.faults (waiting token.old.me.0 t) result, (0, None) ∷ [])) }
    {
        let ticket = self.take_ticket(rt, token);
        self.wait_for(rt, token, ticket);
        self.take_out(token)
    }

    // Puts the desk home after it could not settle, and passes the turn on.
    pub(crate) fn end_held(&self, token: &mut Token<K>, desk: BoxedDesk<K>)
        requires table { token.old.table_id ≡ self.now.table.shared.table_id }
        requires empty { (token.old.me.1 ≡ (0, None) ∷ []) × (token.old.me.0.turns ≡ 1) }
        requires of { IsOf K.Keeper token.old.me.0 desk }
        requires stays { (desk.book ≡ token.old.me.0.book) × (desk.doubt ≡ token.old.me.0.doubt) }
        requires follows { IfSome token.old.me.0.keeper (λ keeper. KeeperFollows K.Keeper keeper desk.keeper) }
        ensures same { (token.new.table_id ≡ token.old.table_id) × (token.new.id ≡ token.old.id) }
        ensures ended { token.new.me ≡ (held_view token.old.me.0 desk.keeper, []) }
    {
        self.put_home(token, desk);
        self.note_keeper(token);
        self.pass(token);
    }

    // Puts the desk home after it has settled and stepped, and passes the turn on. The desk had so many entries as the turn began,
    // so many once it had settled, and has so many now. No closing was in doubt.
    pub(crate) fn end(
        &self,
        token: &mut Token<K>,
        desk: BoxedDesk<K>,
        began: u32,
        settled: u32,
        now: u32,
    )
        requires table { token.old.table_id ≡ self.now.table.shared.table_id }
        requires empty { (token.old.me.1 ≡ (0, None) ∷ []) × (token.old.me.0.turns ≡ 1) }
        requires of { IsOf K.Keeper token.old.me.0 desk }
        requires doubt { IsNoClosing token.old.me.0.doubt }
        requires began { began ≡ size token.old.me.0.book }
        requires now { now ≡ size desk.book }
        requires settled { (s : Book) × (settled ≡ size s) × Settles token.old.me.0.book token.old.me.0.doubt s × Adds s desk.book }
        requires follows { IfSome token.old.me.0.keeper (λ keeper. KeeperFollows K.Keeper keeper desk.keeper) }
        ensures same { (token.new.table_id ≡ token.old.table_id) × (token.new.id ≡ token.old.id) }
        ensures ended { (s : Book) → settled ≡ size s → Settles token.old.me.0.book token.old.me.0.doubt s → Adds s desk.book → token.new.me ≡ (end_view token.old.me.0 s desk.book desk.doubt desk.keeper, []) }
    {
        self.put_home(token, desk);
        self.count_settled_if(token, differs(began, settled));
        self.count_made_if(token, differs(settled, now));
        self.note_settled(token);
        self.pass(token);
    }
}
