//! What is entered of the layers and bytes that were read.
//!
//! A layer has one entry for each class of bytes, and tells for each byte whether it was asked: so an entry that was made
//! for one byte of a class serves another only where that was asked as well.
ghost use Rattle.std.specs.Prelude.{◌≡◌, ◌⊎◌, ℕ, ◌+◌, ◌*◌, ◌<◌, ◌≤◌, max, length, slice_index_or, IfSome, IsTrue};
ghost use Rattle.one_pass.specs.Entered.{has_entry, is_entered, entry_place};
ghost use Rattle.one_pass.specs.declared.entries.Entry.TheVariants.{Unknown as unknown};

use span_core::ByteSet;
use std::alloc::Global;
use way_exits::{BYTES, Classes};

/// What is entered of a byte of a layer.
#[derive(Clone, Copy, Drop)]
pub(crate) enum Entry {
    /// Nothing is known.
    Unknown,
    /// Each set hands its cell on: nothing happens to cells, and the layer of this number is next.
    Glide(u32),
    /// What happens is the step of this number.
    Run(u32),
}

/// The words of a set of bytes.
const SET_WORDS: usize = 8;

/// The words of an entry.
const ENTRY_WORDS: usize = 2;

/// How many layers have entries at most.
const MOST_LAYERS: usize = 4_194_304;

/// For each layer the bytes that were asked, and for each class of bytes what is entered.
#[derive(Drop)]
pub(crate) struct Entries {
    pub(crate) classes: Classes,
    pub(crate) asked: Vec<ByteSet>,
    pub(crate) entered: Vec<Entry>,
    ghost room: { classes.count * length asked.items ≤ length entered.items },
    ghost some: { (k b : ℕ) → b < 256 → IsTrue (has_entry asked.items k b) → IsTrue (is_entered (slice_index_or entered.items (entry_place classes.count classes.numbers k b) unknown)) },
}

impl Entries {
    ghost use Rattle.one_pass.specs.Entries.{entry_at};
    ghost use Rattle.one_pass.specs.declared.entries.Entry.TheVariants.{Unknown as unknown};

    /// No entry of any layer. Takes no memory.
    pub(crate) fn new(alloc: Global, classes: Classes) -> Entries
        ensures none { (k b : ℕ) → entry_at result k b ≡ unknown }
        ensures layers { length result.asked.items ≡ 0 }
    {
        Entries {
            classes,
            asked: Vec::new(alloc),
            entered: Vec::new(alloc),
        }
    }

    /// How many words of four bytes a layer takes.
    pub(crate) fn layer_words(&self) -> usize
        ensures { result ≤ 520 }
    {
        SET_WORDS + ENTRY_WORDS * self.classes.count
    }

    /// What is entered of a byte of a layer.
    #[inline(always)]
    pub(crate) fn at(&self, layer: usize, byte: u8) -> Entry
        ensures { result ≡ entry_at self.now layer byte }
    {
        if self.asked.len() <= layer {
            return Entry::Unknown;
        }
        if !self.asked[layer].contains(byte) {
            return Entry::Unknown;
        }
        self.entered[self.place(layer, byte)]
    }

    /// Where the entry of a byte of a layer stands.
    #[inline(always)]
    fn place(&self, layer: usize, byte: u8) -> usize
        requires { layer < length self.now.asked.items }
        ensures value { result ≡ entry_place self.now.classes.count self.now.classes.numbers layer byte }
        ensures within { result < length self.now.entered.items }
    {
        self.classes.count * layer + self.classes.numbers[byte as usize] as usize
    }

    /// A byte of the same class that has an entry in the layer, if there is one.
    pub(crate) fn like(&self, layer: usize, byte: u8) -> Option<u8>
        ensures { IfSome result (λ c. IsTrue (has_entry self.now.asked.items layer c)) }
    {
        if self.asked.len() <= layer || !is_entered(self.entered[self.place(layer, byte)]) {
            return None;
        }
        let class = self.classes.numbers[byte as usize];
        for number in 0..BYTES {
            let other = number as u8;
            if self.classes.numbers[number] == class && self.asked[layer].contains(other) {
                return Some(other);
            }
        }
        None
    }

    /// Room for so many layers, where there is memory.
    pub(crate) fn make_room(&mut self, layers: usize)
        ensures same { (k b : ℕ) → b < 256 → entry_at self.new k b ≡ entry_at self.old k b }
        ensures layers { length self.new.asked.items ≤ max (length self.old.asked.items) layers }
    {
        if layers > MOST_LAYERS || layers <= self.asked.len() {
            return;
        }
        if widen(&mut self.entered, self.classes.count * layers) {
            let _asked = self.asked.resize(layers, ByteSet::empty());
        }
    }

    /// Enters what is known of a byte of a layer, where there is room and its class has no other entry.
    pub(crate) fn enter(&mut self, layer: usize, byte: u8, entry: Entry)
        ensures entered { (k b : ℕ) → b < 256 →
            (entry_at self.new k b ≡ entry_at self.old k b) ⊎ ((k ≡ layer) × (b ≡ byte) × (entry_at self.new k b ≡ entry)) }
        ensures layers { length self.new.asked.items ≡ length self.old.asked.items }
    {
        if !is_entered(entry) {
            return;
        }
        if self.asked.len() <= layer {
            return;
        }
        let place = self.place(layer, byte);
        if !is_room_for(entry, self.entered[place]) {
            return;
        }
        let asked = self.asked[layer].union(&ByteSet::single(byte));
        self.entered[place] = entry;
        self.asked[layer] = asked;
    }
}

/// Whether an entry says something.
fn is_entered(entry: Entry) -> bool
    ensures { result ≡ is_entered entry }
{
    match entry {
        Entry::Unknown => false,
        Entry::Glide(_) => true,
        Entry::Run(_) => true,
    }
}

/// Whether an entry may stand where this one does: it is the same, or there is none.
fn is_room_for(entry: Entry, had: Entry) -> bool
    ensures { IsTrue result → (had ≡ unknown) ⊎ (had ≡ entry) }
{
    match (had, entry) {
        (Entry::Unknown, _) => true,
        (Entry::Glide(before), Entry::Glide(layer)) => before == layer,
        (Entry::Run(before), Entry::Run(step)) => before == step,
        (Entry::Glide(_), _) => false,
        (Entry::Run(_), _) => false,
    }
}

/// Room for so many entries, of which the new ones are unknown; whether there was memory.
fn widen(entered: &mut Vec<Entry>, count: usize) -> bool
    ensures same { (k : ℕ) → k < length entered.old.items →
        slice_index_or entered.new.items k unknown ≡ slice_index_or entered.old.items k unknown }
    ensures longer { length entered.old.items ≤ length entered.new.items }
    ensures room { IsTrue result → count ≤ length entered.new.items }
{
    count <= entered.len() || entered.resize(count, Entry::Unknown).is_ok()
}
