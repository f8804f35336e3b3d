ghost use Rattle.std.specs.Prelude.{◌≡◌, ◌≤◌, ◌==◌, not, ◌+◌, ◌++◌, ◌∷◌, [], ℕ, option_map, OnOk};
ghost use Rattle.std.specs.List.{filter};
ghost use Rattle.rv_book.specs.Kept.{kept};
ghost use Rattle.rv_book.specs.Kept.{is_place};
ghost use Rattle.rv_news.specs.Records.{Locates, Rise, record_at};

use rv_base::Memory;
use rv_book::Book;
use rv_views::ViewRecord;
use std::alloc::Global;
use std::marker::Model;

/// View records, each with the place of its look, in the order of the places.
///
/// A contract sees them as a list, and a lower bound of the space that is left, `spare`.
#[derive(Debug, Drop)]
pub struct Records {
    records: Vec<(u32, ViewRecord)>,
}

impl Model for Records {
    ghost use Rattle.std.specs.Prelude.{◌-◌, vec_len, vec_capacity};
    ghost use Rattle.rv_news.specs.Records.{Collected};

    ghost Value = { Collected };

    ghost view = { λ r. record { records = r.records.items; spare = vec_capacity r.records - vec_len r.records } };
}

// Where the record at a place stands, if there is one.
fn locate(records: &[(u32, ViewRecord)], place: u32) -> Result<usize, usize>
    requires { Rise records.now }
    ensures { Locates place records.now result }
{
    records.binary_search_by_key(&place, |record| record.0)
}

impl Records {
    /// No record.
    pub fn new(alloc: Global) -> Records
        ensures { result.records ≡ [] }
    {
        Records {
            records: Vec::new(alloc),
        }
    }

    /// The record of the look at a place. Takes no memory.
    pub fn get(&self, place: u32) -> Option<&ViewRecord>
        requires { Rise self.now.records }
        ensures { option_map (λ r. r.now) result ≡ record_at place self.now.records }
    {
        match locate(&self.records, place) {
            Ok(at) => Some(&self.records[at].1),
            Err(_) => None,
        }
    }

    /// The records, each with its place, in the order of the places.
    pub fn as_slice(&self) -> &[(u32, ViewRecord)]
        ensures { result.now ≡ self.now.records }
    {
        &self.records
    }

    /// Makes space for one more record.
    pub fn reserve(&mut self) -> Result<(), Memory>
        ensures records { self.new.records ≡ self.old.records }
        ensures ok { OnOk result (1 ≤ self.new.spare) }
        ensures spare { self.old.spare ≤ self.new.spare }
    {
        self.records.reserve(1)?;
        Ok(())
    }

    /// One more record, after the others. It can't fail, and takes no memory.
    pub fn push(&mut self, place: u32, view: ViewRecord)
        requires { 1 ≤ self.old.spare }
        ensures records { self.new.records ≡ self.old.records ++ (place, view) ∷ [] }
        ensures spare { self.old.spare ≤ self.new.spare + 1 }
    {
        match self.records.push((place, view)) {
            Ok(()) => {}
            Err(_) => unreachable!(),
        }
    }

    // Lets the record at a place go, if there is one there.
    fn drop_at(&mut self, place: u32)
        ensures records { self.new.records ≡ filter (λ r. not (r.0 == place)) self.old.records }
        ensures spare { self.old.spare ≤ self.new.spare }
    {
        self.records.retain(|record| record.0 != place);
    }

    /// Lets the record at this place go, if a place is given. It can't fail, and takes no memory.
    pub fn let_one_go(&mut self, place: Option<u32>)
        ensures records { self.new.records ≡ filter (λ r. not (is_place r.0 place)) self.old.records }
        ensures spare { self.old.spare ≤ self.new.spare }
    {
        match place {
            Some(place) => self.drop_at(place),
            None => {}
        }
    }

    /// Lets the records go whose looks the book does not keep. It can't fail, and takes no memory.
    pub fn let_go(&mut self, book: &Book)
        ensures records { self.new.records ≡ filter (λ r. kept r.0 book.now.book) self.old.records }
        ensures spare { self.old.spare ≤ self.new.spare }
    {
        self.records.retain(|record| book.kept(record.0));
    }
}
