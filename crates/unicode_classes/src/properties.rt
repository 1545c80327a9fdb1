//! Sets of characters by the names of properties.
ghost use Rattle.std.specs.Prelude.{◌≡◌, ℕ, ◌↔◌, map, IsTrue, IfOk, MatchOption};
ghost use Rattle.std.specs.Char.{IsScalar};
ghost use Rattle.span_core.specs.Intervals.{Covers};
ghost use Rattle.unicode.specs.Steps.{is_between, run_value, IsPartition};
ghost use Rattle.unicode_classes.specs.Properties.{look_up, names, property_of, has_property, IsProperty, IsPropertyName};

use crate::CharSet;
use crate::ranges::push_characters;
use span_core::{OutOfMemory, Touched};
use std::alloc::Global;
use unicode::properties::{GeneralCategory, GeneralCategoryGroup};
use unicode::runs::derived;
use unicode::table;

/// What the name of a property means.
#[derive(Clone, Copy)]
pub(crate) enum Meaning {
    Alphabetic,
    Category(GeneralCategory),
    Categories(GeneralCategoryGroup),
}

/// A name, and what it means.
#[derive(Clone, Copy)]
struct Named {
    name: &'static [u8],
    meaning: Meaning,
}

/// The set of a name, and None where it is none of the names.
pub(crate) fn property_set(alloc: Global, name: &[u8]) -> Result<Option<CharSet>, OutOfMemory>
    ensures { IfOk result (λ found. MatchOption found (¬ IsPropertyName name.now) (λ s. IsProperty name.now s)) }
{
    let Some(meaning) = meaning_of(name) else {
        return Ok(None);
    };
    let set = meant_set(alloc, meaning)?;
    Ok(Some(set))
}

/// The characters that have the property.
fn meant_set(alloc: Global, meaning: Meaning) -> Result<CharSet, OutOfMemory>
    ensures { IfOk result (λ s. (c : ℕ) → Covers s c ↔ (IsScalar c × IsTrue (has_property meaning c))) }
{
    match meaning {
        Meaning::Alphabetic => set_of(alloc, derived::alphabetic(), 1, 1),
        Meaning::Category(value) => {
            let number = value.number();
            set_of(alloc, GeneralCategory::runs(), number, number)
        }
        Meaning::Categories(group) => {
            let bounds = group.bounds();
            set_of(alloc, GeneralCategory::runs(), bounds.0, bounds.1)
        }
    }
}

/// The characters whose value in the runs is from `first` to `last`.
fn set_of(alloc: Global, runs: &[u32], first: u32, last: u32) -> Result<CharSet, OutOfMemory>
    requires { IsPartition runs.now }
    ensures { IfOk result (λ s. (c : ℕ) → Covers s c ↔ (IsScalar c × IsTrue (is_between first last (run_value runs.now c)))) }
{
    let mut set = Touched::new(alloc);
    let ranges = table::ranges(alloc, runs, first, last)?;
    for range in &ranges {
        push_characters(&mut set, range.0, range.1)?;
    }
    Ok(CharSet::of(alloc, set))
}

/// What the name means, if anything.
fn meaning_of(name: &[u8]) -> Option<Meaning>
    ensures { result ≡ look_up names name.now }
{
    find(&NAMES, name)
}

/// What stands beside the name.
fn find(all: &[Named], name: &[u8]) -> Option<Meaning>
    ensures { result ≡ look_up (map property_of all.now) name.now }
{
    for named in all {
        if named.name == name {
            return Some(named.meaning);
        }
    }
    None
}

static NAMES: [Named; 37] = [
    Named {
        name: b"Alphabetic",
        meaning: Meaning::Alphabetic,
    },
    Named {
        name: b"L",
        meaning: Meaning::Categories(GeneralCategoryGroup::Letter),
    },
    Named {
        name: b"M",
        meaning: Meaning::Categories(GeneralCategoryGroup::Mark),
    },
    Named {
        name: b"N",
        meaning: Meaning::Categories(GeneralCategoryGroup::Number),
    },
    Named {
        name: b"P",
        meaning: Meaning::Categories(GeneralCategoryGroup::Punctuation),
    },
    Named {
        name: b"S",
        meaning: Meaning::Categories(GeneralCategoryGroup::Symbol),
    },
    Named {
        name: b"Z",
        meaning: Meaning::Categories(GeneralCategoryGroup::Separator),
    },
    Named {
        name: b"C",
        meaning: Meaning::Categories(GeneralCategoryGroup::Other),
    },
    Named {
        name: b"Lu",
        meaning: Meaning::Category(GeneralCategory::UppercaseLetter),
    },
    Named {
        name: b"Ll",
        meaning: Meaning::Category(GeneralCategory::LowercaseLetter),
    },
    Named {
        name: b"Lt",
        meaning: Meaning::Category(GeneralCategory::TitlecaseLetter),
    },
    Named {
        name: b"Lm",
        meaning: Meaning::Category(GeneralCategory::ModifierLetter),
    },
    Named {
        name: b"Lo",
        meaning: Meaning::Category(GeneralCategory::OtherLetter),
    },
    Named {
        name: b"Mn",
        meaning: Meaning::Category(GeneralCategory::NonspacingMark),
    },
    Named {
        name: b"Mc",
        meaning: Meaning::Category(GeneralCategory::SpacingMark),
    },
    Named {
        name: b"Me",
        meaning: Meaning::Category(GeneralCategory::EnclosingMark),
    },
    Named {
        name: b"Nd",
        meaning: Meaning::Category(GeneralCategory::DecimalNumber),
    },
    Named {
        name: b"Nl",
        meaning: Meaning::Category(GeneralCategory::LetterNumber),
    },
    Named {
        name: b"No",
        meaning: Meaning::Category(GeneralCategory::OtherNumber),
    },
    Named {
        name: b"Pc",
        meaning: Meaning::Category(GeneralCategory::ConnectorPunctuation),
    },
    Named {
        name: b"Pd",
        meaning: Meaning::Category(GeneralCategory::DashPunctuation),
    },
    Named {
        name: b"Ps",
        meaning: Meaning::Category(GeneralCategory::OpenPunctuation),
    },
    Named {
        name: b"Pe",
        meaning: Meaning::Category(GeneralCategory::ClosePunctuation),
    },
    Named {
        name: b"Pi",
        meaning: Meaning::Category(GeneralCategory::InitialPunctuation),
    },
    Named {
        name: b"Pf",
        meaning: Meaning::Category(GeneralCategory::FinalPunctuation),
    },
    Named {
        name: b"Po",
        meaning: Meaning::Category(GeneralCategory::OtherPunctuation),
    },
    Named {
        name: b"Sm",
        meaning: Meaning::Category(GeneralCategory::MathSymbol),
    },
    Named {
        name: b"Sc",
        meaning: Meaning::Category(GeneralCategory::CurrencySymbol),
    },
    Named {
        name: b"Sk",
        meaning: Meaning::Category(GeneralCategory::ModifierSymbol),
    },
    Named {
        name: b"So",
        meaning: Meaning::Category(GeneralCategory::OtherSymbol),
    },
    Named {
        name: b"Zs",
        meaning: Meaning::Category(GeneralCategory::SpaceSeparator),
    },
    Named {
        name: b"Zl",
        meaning: Meaning::Category(GeneralCategory::LineSeparator),
    },
    Named {
        name: b"Zp",
        meaning: Meaning::Category(GeneralCategory::ParagraphSeparator),
    },
    Named {
        name: b"Cc",
        meaning: Meaning::Category(GeneralCategory::Control),
    },
    Named {
        name: b"Cf",
        meaning: Meaning::Category(GeneralCategory::Format),
    },
    Named {
        name: b"Co",
        meaning: Meaning::Category(GeneralCategory::PrivateUse),
    },
    Named {
        name: b"Cn",
        meaning: Meaning::Category(GeneralCategory::Unassigned),
    },
];
