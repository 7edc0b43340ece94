// The journal: judged, an entry more, an entry less.
#![tactic(auto)]

ghost use Rattle.std.specs.Prelude.{◌≡◌, ◌≤◌, ◌<◌, IfOk};
ghost use Rattle.rym1.specs.Causes.{judged};
ghost use Rattle.rym1.specs.Journal.{entries, journal_cause, push_cause, last_entry, entry_words, pushed, popped};
ghost use Rattle.journal.specs.Entry.{number, kind_number, words, said};

use rym1::Cause;

// The most entries.
const MOST: u32 = 16777216;

// What an edit did to its cell: a record came, one was written over, one went.
#[derive(Clone, Copy, PartialEq, Eq)]
pub enum Kind {
    Added = 1,
    Replaced,
    Removed,
}

// An edit's account: the head has its kind in the top two bits and the cell's number below; the masses are those that the cell held before.
#[derive(Clone, Copy)]
pub struct Entry {
    pub head: u32,
    pub cauchy: u32,
    pub elliptic: u32,
}

impl Entry {
    #[tactic(auto, unfolding(crate::specs::Entry::number, rym1::specs::Journal::entry_words))]
    pub fn new(kind: Kind, cell: u32, cauchy: u32, elliptic: u32) -> Entry
        requires { cell < 16777216 }
        ensures { words result ≡ entry_words (number kind) cell cauchy elliptic }
    {
        Entry {
            head: kind as u32 * 0x4000_0000 + cell,
            cauchy,
            elliptic,
        }
    }

    // None in an entry that no edit wrote. As `TryFrom` it would be the same match.
    #[tactic(auto, unfolding(crate::specs::Entry::number, crate::specs::Entry::kind_number))]
    pub fn kind(self) -> Option<Kind>
        ensures { kind_number result ≡ (said self).kind }
    {
        match self.head / 0x4000_0000 % 4 {
            1 => Some(Kind::Added),
            2 => Some(Kind::Replaced),
            3 => Some(Kind::Removed),
            _ => None,
        }
    }

    // The bits between, 0 in an entry that an edit wrote.
    pub fn gap(self) -> u32
        ensures { result ≡ (said self).gap }
    {
        self.head / 0x100_0000 % 64
    }

    pub fn cell(self) -> u32
        ensures { result ≡ (said self).cell }
    {
        self.head % 0x100_0000
    }
}

// A journal that is not refused.
#[derive(Clone, Copy)]
pub struct Journal<'a> {
    pub words: &'a [u32],
    ghost accepted: { journal_cause words.now ≡ 0 },
}

impl Journal<'_> {
    #[tactic(auto, using(crate::proofs::Counted::counted))]
    pub fn entries(self) -> u32
        ensures { (result ≡ entries self.entry.words.now) × (result ≤ 16777216) }
    {
        self.words[0]
    }

    // 13.
    #[tactic(auto, using(crate::proofs::Counted::full), unfolding(rym1::specs::Causes::judged, rym1::specs::Causes::number))]
    pub fn push_cause(self) -> Result<(), Cause>
        ensures { judged result ≡ push_cause self.entry.words.now }
    {
        let e = self.entries();
        if self.words.len() < 4 + 3 * e as usize || e == MOST {
            return Err(Cause::JournalFull);
        }
        Ok(())
    }

    // The last entry.
    #[tactic(auto, using(crate::proofs::Counted::counted))]
    pub fn last(self) -> Entry
        requires { 0 < entries self.words.now }
        ensures { said result ≡ last_entry self.entry.words.now }
    {
        let at = 1 + 3 * (self.entries() - 1) as usize;
        Entry {
            head: self.words[at],
            cauchy: self.words[at + 1],
            elliptic: self.words[at + 2],
        }
    }
}

// 11.
#[tactic(auto, using(crate::proofs::Counted::wrong), unfolding(rym1::specs::Causes::judged, rym1::specs::Causes::number))]
pub fn journal_cause(journal: &[u32]) -> Result<Journal<'_>, Cause>
    ensures cause { judged result ≡ journal_cause journal.now }
    ensures journal { IfOk result (λ j. j.words.now ≡ journal.now) }
{
    if journal.len() == 0 || MOST < journal[0] || journal.len() < 1 + 3 * journal[0] as usize {
        return Err(Cause::JournalWrong);
    }
    Ok(Journal { words: journal })
}

// One entry more.
#[tactic(auto, using(crate::proofs::Counted::counted))]
pub fn push(journal: &mut [u32], entry: Entry)
    requires accepted { journal_cause journal.old ≡ 0 }
    requires free { push_cause journal.old ≡ 0 }
    ensures { journal.new ≡ pushed journal.old (words entry) }
{
    let e = journal[0];
    let at = 1 + 3 * e as usize;
    journal[at..at + 3].copy_from_slice(&[entry.head, entry.cauchy, entry.elliptic]);
    journal[0] = e + 1;
}

// The last entry zeroed and no longer counted.
#[tactic(auto, using(crate::proofs::Counted::counted, rym1::proofs::Journal::popped_stores))]
pub fn pop(journal: &mut [u32])
    requires accepted { journal_cause journal.old ≡ 0 }
    requires counted { 0 < entries journal.old }
    ensures { journal.new ≡ popped journal.old }
{
    let e = journal[0] - 1;
    let at = 1 + 3 * e as usize;
    journal[at..at + 3].fill(0);
    journal[0] = e;
}
