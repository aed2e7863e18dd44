// The lists of an index that have postings, one after the other.
ghost use Rattle.std.specs.Prelude.{◌≡◌, ◌≢◌, ◌+◌, ◌≤◌, ◌<◌, ◌^◌, [], length, slice_index};
ghost use Rattle.std.specs.Prelude.{IfSome, IsTrue, ◌↔◌, None};
ghost use Rattle.collection_model.specs.FormatNumbers.{Plain};
ghost use Rattle.collection_model.specs.Collection.{list_of};
ghost use Rattle.part_cost.specs.Formats.{numbers_of};
ghost use Rattle.part_cost.specs.declared.formats.Format.TheVariants.{Three};
ghost use Rattle.packed_list.specs.ListStated.{IsRead};
ghost use Rattle.index_file.specs.FileWords.{Spells};
ghost use Rattle.index_file.specs.FirstBroken.{stated_terms};
ghost use Rattle.index_file.specs.Gaps.{place_in, AreHere};
ghost use Rattle.index_file.specs.PackedAt.{packed_terms, starts_stated, PassesPacked};
ghost use Rattle.index_file.specs.PackedView.{packed_list_stated};
ghost use Rattle.index_file.specs.DirectoryView.{IsDirectory};
ghost use Rattle.index_file.specs.IndexView.{index_stated, list_of_kind};
ghost use Rattle.index_file.specs.ListWalk.{AreEmpty, AreOfList, HasNext, HasTerms, IsReadOf};
ghost use Rattle.index_file.specs.ListWalk.{KeepsNumbers, StandsAt};

use crate::frame::frame_of;
use crate::gaps::go_to_gap;
use crate::laws::file_laws;
use crate::packed_checking::{FIRST_LIST_BIT, starts_part};
use crate::packed_frame::packed_frame_of;
use crate::run::{BLOCK, Run};
use crate::totals::is_without_bits;
use crate::views::plain_list_views;
use packed_list::{ListRead, ListViews, read_list, view_list};
use part_codec::PartView;
use part_cost::Format;
use std::marker::Model;

/// The lists of an index that have postings, one after the other. The directory of a packed file is
/// read some numbers at once, and lists without postings are passed by looking at these alone.
#[derive(Drop)]
pub struct ListWalk<'a> {
    words: &'a [u64],
    format: Format,
    terms: u32,
    // The directory of a packed file, and some of its numbers.
    directory: Option<PartView<'a>>,
    numbers: [u64; BLOCK],
    // The place of the next list that has postings, and of its number.
    run: Run,
}

impl<'a> Model for ListWalk<'a> {
    ghost use Rattle.index_file.specs.Gaps.{place_in};
    ghost use Rattle.index_file.specs.IndexView.{index_stated};
    ghost use Rattle.index_file.specs.ListWalk.{ListsInTurn, HasNext, HasTerms, KeepsNumbers};
    ghost use Rattle.index_file.specs.ListWalk.{StandsAt};

    ghost Value = { ListsInTurn };

    ghost view = { λ w. record {
      collection = (index_stated w.words.now).collection;
      next = place_in w.run;
    } };

    ghost invariant = { λ w. HasTerms w.words.now w.format w.terms
        × KeepsNumbers w.words.now w.format w.directory w.numbers w.run
        × StandsAt w.words.now w.terms (place_in w.run) × HasNext w.directory w.terms w.run };
}

impl<'a> ListWalk<'a> {
    // The lists of the words of an index, from the first on.
    pub(crate) fn over(words: &'a [u64], format: Format) -> ListWalk<'a>
        requires words { length words.now < 2 ^ 57 }
        requires index { Spells (numbers_of format) words.now (index_stated words.now).collection
            (index_stated words.now).parts }
        ensures collection { result.collection ≡ (index_stated words.entry.now).collection }
        ensures empty { AreEmpty result.collection 0 result.next }
    {
        file_laws();
        let terms = frame_of(words).terms as u32;
        let directory = directory_kept(words, format);
        let mut numbers = [0; BLOCK];
        let run = go_to_first(words, format, terms, &directory, &mut numbers);
        ListWalk {
            words,
            format,
            terms,
            directory,
            numbers,
            run,
        }
    }

    /// Whether list t is the next that has postings.
    pub fn is_next(&self, t: u32) -> bool
        ensures next { IsTrue result
            ↔ ((t < length self.now.collection.lists) × (t ≡ self.now.next)) }
        ensures some { IsTrue result → list_of self.now.collection t ≢ [] }
    {
        file_laws();
        self.run.first + self.run.at as u32 == t && t < self.terms
    }

    /// Whether there is a next list that has postings, by which it is.
    #[inline(always)]
    pub fn has_list(&self, next: u32) -> bool
        requires { next ≡ self.now.next }
        ensures next { IsTrue result ↔ (next < length self.now.collection.lists) }
        ensures some { IsTrue result → list_of self.now.collection next ≢ [] }
    {
        file_laws();
        next < self.terms
    }

    /// Which list is the next that has postings, or how many there are.
    #[inline(always)]
    pub fn next(&self) -> u32
        ensures { result ≡ self.now.next }
    {
        file_laws();
        self.run.first + self.run.at as u32
    }

    /// The next list that has postings.
    pub fn next_list(&self) -> ListViews<'a>
        requires within { self.now.next < length self.now.collection.lists }
        ensures { AreOfList result.docs result.freqs result.greatest
            (list_of self.now.collection self.now.next) }
    {
        file_laws();
        list_here(
            self.words,
            self.format,
            self.terms,
            &self.directory,
            self.run,
            &self.numbers,
        )
    }

    /// What is read of the next list that has postings.
    #[inline(always)]
    pub fn next_read(&self) -> ListRead<'a>
        requires within { self.now.next < length self.now.collection.lists }
        ensures { IsReadOf result (list_of self.now.collection self.now.next) }
    {
        file_laws();
        read_here(
            self.words,
            self.format,
            self.terms,
            &self.directory,
            self.run,
            &self.numbers,
        )
    }

    /// Goes on to the list behind it that has postings.
    #[inline(always)]
    pub fn pass_list(&mut self)
        requires within { self.old.next < length self.old.collection.lists }
        ensures collection { self.new.collection ≡ self.old.collection }
        ensures later { self.old.next < self.new.next }
        ensures empty { AreEmpty self.old.collection (self.old.next + 1) self.new.next }
    {
        file_laws();
        let words = self.words;
        let format = self.format;
        let terms = self.terms;
        let run = self.run;
        let behind = Run {
            at: run.at + 1,
            ..run
        };
        self.run = go_to_list(
            words,
            format,
            terms,
            &self.directory,
            behind,
            &mut self.numbers,
        );
    }
}

// The directory of a packed file; of a plain file none is kept.
fn directory_kept<'a>(words: &'a [u64], format: Format) -> Option<PartView<'a>>
    requires words { length words.now < 2 ^ 57 }
    requires index { Spells (numbers_of format) words.now (index_stated words.now).collection
        (index_stated words.now).parts }
    ensures packed { IfSome result (λ d. (format ≡ Three) × IsDirectory words.entry.now d) }
    ensures plain { result ≡ None → (numbers_of format).kind ≡ Plain }
{
    file_laws();
    match format {
        Format::One => None,
        Format::Two => None,
        Format::Three => Some(PartView::at(starts_part(words, packed_frame_of(words)))),
    }
}

// List t of a packed file, by its number of the directory and the next.
fn packed_list_between<'a>(words: &'a [u64], t: u32, number: u64, next: u64) -> ListViews<'a>
    requires words { length words.now < 2 ^ 57 }
    requires passes { PassesPacked words.now }
    requires within { t < packed_terms words.now }
    requires number { number ≡ slice_index (starts_stated words.now) t }
    requires next { next ≡ slice_index (starts_stated words.now) (t + 1) }
    requires apart { next ≢ number + 1 }
    ensures docs { result.docs ≡ (packed_list_stated words.entry.now t).docs }
    ensures freqs { result.freqs ≡ (packed_list_stated words.entry.now t).freqs }
    ensures greatest { result.greatest ≡ (packed_list_stated words.entry.now t).most }
{
    file_laws();
    let from = FIRST_LIST_BIT + number - t as u64;
    let to = FIRST_LIST_BIT + next - 1 - t as u64;
    let documents = packed_frame_of(words).documents as u32;
    view_list(words, from, to, documents)
}

// What is read of list t of a packed file, by its number of the directory and the next.
fn packed_read_between<'a>(words: &'a [u64], t: u32, number: u64, next: u64) -> ListRead<'a>
    requires words { length words.now < 2 ^ 57 }
    requires passes { PassesPacked words.now }
    requires within { t < packed_terms words.now }
    requires number { number ≡ slice_index (starts_stated words.now) t }
    requires next { next ≡ slice_index (starts_stated words.now) (t + 1) }
    requires apart { next ≢ number + 1 }
    ensures { IsRead result (packed_list_stated words.entry.now t) }
{
    file_laws();
    let from = FIRST_LIST_BIT + number - t as u64;
    let to = FIRST_LIST_BIT + next - 1 - t as u64;
    let documents = packed_frame_of(words).documents as u32;
    read_list(words, from, to, documents)
}

// What is read of list t of a plain file, which has postings.
fn plain_read<'a>(words: &'a [u64], format: Format, terms: u32, t: u32) -> ListRead<'a>
    requires index { HasTerms words.now format terms }
    requires plain { (numbers_of format).kind ≡ Plain }
    requires within { t < terms }
    requires not_empty { list_of (index_stated words.now).collection t ≢ [] }
    ensures { IsRead result (list_of_kind (numbers_of format).kind (numbers_of format)
        words.entry.now t) }
{
    file_laws();
    let list = plain_list_views(words, t, format);
    if list.docs.len() == 1 {
        return ListRead::One(list.docs.get(0) as u32, list.greatest);
    }
    ListRead::Several(list)
}

// What is read of the list that is looked at, which has postings.
fn read_here<'a>(
    words: &'a [u64],
    format: Format,
    terms: u32,
    directory: &Option<PartView<'a>>,
    run: Run,
    numbers: &[u64],
) -> ListRead<'a>
    requires index { HasTerms words.now format terms }
    requires numbers { KeepsNumbers words.now format directory.now numbers.now run }
    requires stands { StandsAt words.now terms (place_in run) }
    requires next { HasNext directory.now terms run }
    requires within { place_in run < terms }
    ensures { IsRead result (list_of_kind (numbers_of format).kind (numbers_of format)
        words.entry.now (place_in run)) }
{
    file_laws();
    let t = run.first + run.at as u32;
    match directory {
        Some(_) => packed_read_between(words, t, numbers[run.at], numbers[run.at + 1]),
        None => plain_read(words, format, terms, t),
    }
}

// The list that is looked at, which has postings.
fn list_here<'a>(
    words: &'a [u64],
    format: Format,
    terms: u32,
    directory: &Option<PartView<'a>>,
    run: Run,
    numbers: &[u64],
) -> ListViews<'a>
    requires index { HasTerms words.now format terms }
    requires numbers { KeepsNumbers words.now format directory.now numbers.now run }
    requires stands { StandsAt words.now terms (place_in run) }
    requires next { HasNext directory.now terms run }
    requires within { place_in run < terms }
    ensures docs { result.docs ≡ (list_of_kind (numbers_of format).kind (numbers_of format)
        words.entry.now (place_in run)).docs }
    ensures freqs { result.freqs ≡ (list_of_kind (numbers_of format).kind (numbers_of format)
        words.entry.now (place_in run)).freqs }
    ensures greatest { result.greatest
        ≡ (list_of_kind (numbers_of format).kind (numbers_of format) words.entry.now
        (place_in run)).most }
{
    file_laws();
    let t = run.first + run.at as u32;
    match directory {
        Some(_) => packed_list_between(words, t, numbers[run.at], numbers[run.at + 1]),
        None => plain_list_views(words, t, format),
    }
}

// The first list of a plain file from one on that has postings, or how many lists there are.
fn first_of_plain(words: &[u64], format: Format, terms: u32, from: u32) -> u32
    requires index { HasTerms words.now format terms }
    requires plain { (numbers_of format).kind ≡ Plain }
    requires within { from ≤ terms }
    ensures later { from ≤ result }
    ensures stands { StandsAt words.now terms result }
    ensures empty { AreEmpty (index_stated words.now).collection from result }
{
    file_laws();
    for t in from..terms {
        if plain_list_views(words, t, format).docs.len() > 0 {
            return t;
        }
    }
    terms
}

// Goes to the first list that has postings, or behind the last. Where no list has postings no
// number is looked at: six words can state as many lists as there may be.
fn go_to_first(
    words: &[u64],
    format: Format,
    terms: u32,
    directory: &Option<PartView<'_>>,
    numbers: &mut [u64],
) -> Run
    requires index { HasTerms words.now format terms }
    requires packed { IfSome directory.now (λ d. (format ≡ Three) × IsDirectory words.now d) }
    requires plain { directory.now ≡ None → (numbers_of format).kind ≡ Plain }
    requires room { length numbers.old ≡ 16 }
    requires start { slice_index numbers.old 0 ≡ 0 }
    ensures numbers { KeepsNumbers words.now format directory.now numbers.new result }
    ensures stands { StandsAt words.now terms (place_in result) }
    ensures next { HasNext directory.now terms result }
    ensures empty { AreEmpty (index_stated words.now).collection 0 (place_in result) }
{
    file_laws();
    if is_without_bits(words, format) {
        numbers[0] = u64::from(terms);
        return Run {
            first: terms,
            at: 0,
            count: 1,
            marks: 0,
        };
    }
    let start = Run {
        first: 0,
        at: 0,
        count: 1,
        marks: 0,
    };
    go_to_list(words, format, terms, directory, start, numbers)
}

// Goes on to the first list from one on that has postings, or behind the last.
#[inline(always)]
fn go_to_list(
    words: &[u64],
    format: Format,
    terms: u32,
    directory: &Option<PartView<'_>>,
    run: Run,
    numbers: &mut [u64],
) -> Run
    requires index { HasTerms words.now format terms }
    requires numbers { KeepsNumbers words.now format directory.now numbers.old run }
    requires within { place_in run ≤ terms }
    ensures numbers { KeepsNumbers words.now format directory.now numbers.new result }
    ensures stands { StandsAt words.now terms (place_in result) }
    ensures next { HasNext directory.now terms result }
    ensures later { place_in run ≤ place_in result }
    ensures empty { AreEmpty (index_stated words.now).collection (place_in run) (place_in result) }
{
    file_laws();
    match directory {
        Some(directory) => go_to_gap(directory, terms, run, numbers),
        None => Run {
            first: first_of_plain(words, format, terms, run.first + run.at as u32),
            at: 0,
            count: 1,
            marks: 0,
        },
    }
}
