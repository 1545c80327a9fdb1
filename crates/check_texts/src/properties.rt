//! The sets of the names of properties, against a walk over all characters.
use span_core::OutOfMemory;
use std::alloc::Global;
use unicode::properties::{GeneralCategory, GeneralCategoryGroup, is_alphabetic};
use unicode_classes::CharSet;

/// The ranges of all characters.
const ALL: [(u32, u32); 2] = [(0, 0xD7FF), (0xE000, 0x10_FFFF)];

/// Which characters a walk over all of them keeps.
#[derive(Clone, Copy)]
enum Kept {
    Alphabetic,
    Category(GeneralCategory),
    Group(GeneralCategoryGroup),
}

fn keeps(kept: Kept, c: char) -> bool {
    match kept {
        Kept::Alphabetic => is_alphabetic(c),
        Kept::Category(value) => GeneralCategory::for_char(c) == value,
        Kept::Group(group) => group.contains(GeneralCategory::for_char(c)),
    }
}

/// Adds a number at the end of the ranges.
fn extend(ranges: &mut Vec<(u32, u32)>, n: u32) -> Result<(), OutOfMemory> {
    let end = ranges.len();
    if end > 0 && ranges[end - 1].1.saturating_add(1) == n {
        ranges[end - 1].1 = n;
    } else {
        ranges.push((n, n))?;
    }
    Ok(())
}

/// The ranges of the characters that are kept, found one after another.
fn walked(alloc: Global, kept: Kept) -> Result<Vec<(u32, u32)>, OutOfMemory> {
    let mut ranges: Vec<(u32, u32)> = Vec::new(alloc);
    for n in 0..0x11_0000u32 {
        if let Some(c) = char::from_u32(n) {
            if keeps(kept, c) {
                extend(&mut ranges, n)?;
            }
        }
    }
    Ok(ranges)
}

/// Whether the set of the name is that of the walk, and what joins it and what it leaves out is every character.
pub(crate) fn agrees(alloc: Global, property: &Property) -> Result<bool, OutOfMemory> {
    let ranges = walked(alloc, property.kept)?;
    let Some(mut set) = CharSet::property(alloc, property.name.as_bytes())? else {
        return Ok(false);
    };
    let same = set.ranges() == ranges.as_slice();
    let rest = set.negation(alloc)?;
    set.merge(&rest)?;
    set.add('a', 'z')?;
    Ok(same && set.ranges() == ALL.as_slice())
}

/// A name, and the characters that it is to mean.
#[derive(Clone, Copy)]
pub(crate) struct Property {
    pub name: &'static str,
    kept: Kept,
}

/// Every name of a property.
pub static PROPERTIES: [Property; 37] = [
    Property {
        name: "Alphabetic",
        kept: Kept::Alphabetic,
    },
    Property {
        name: "Lu",
        kept: Kept::Category(GeneralCategory::UppercaseLetter),
    },
    Property {
        name: "Ll",
        kept: Kept::Category(GeneralCategory::LowercaseLetter),
    },
    Property {
        name: "Lt",
        kept: Kept::Category(GeneralCategory::TitlecaseLetter),
    },
    Property {
        name: "Lm",
        kept: Kept::Category(GeneralCategory::ModifierLetter),
    },
    Property {
        name: "Lo",
        kept: Kept::Category(GeneralCategory::OtherLetter),
    },
    Property {
        name: "Mn",
        kept: Kept::Category(GeneralCategory::NonspacingMark),
    },
    Property {
        name: "Mc",
        kept: Kept::Category(GeneralCategory::SpacingMark),
    },
    Property {
        name: "Me",
        kept: Kept::Category(GeneralCategory::EnclosingMark),
    },
    Property {
        name: "Nd",
        kept: Kept::Category(GeneralCategory::DecimalNumber),
    },
    Property {
        name: "Nl",
        kept: Kept::Category(GeneralCategory::LetterNumber),
    },
    Property {
        name: "No",
        kept: Kept::Category(GeneralCategory::OtherNumber),
    },
    Property {
        name: "Pc",
        kept: Kept::Category(GeneralCategory::ConnectorPunctuation),
    },
    Property {
        name: "Pd",
        kept: Kept::Category(GeneralCategory::DashPunctuation),
    },
    Property {
        name: "Ps",
        kept: Kept::Category(GeneralCategory::OpenPunctuation),
    },
    Property {
        name: "Pe",
        kept: Kept::Category(GeneralCategory::ClosePunctuation),
    },
    Property {
        name: "Pi",
        kept: Kept::Category(GeneralCategory::InitialPunctuation),
    },
    Property {
        name: "Pf",
        kept: Kept::Category(GeneralCategory::FinalPunctuation),
    },
    Property {
        name: "Po",
        kept: Kept::Category(GeneralCategory::OtherPunctuation),
    },
    Property {
        name: "Sm",
        kept: Kept::Category(GeneralCategory::MathSymbol),
    },
    Property {
        name: "Sc",
        kept: Kept::Category(GeneralCategory::CurrencySymbol),
    },
    Property {
        name: "Sk",
        kept: Kept::Category(GeneralCategory::ModifierSymbol),
    },
    Property {
        name: "So",
        kept: Kept::Category(GeneralCategory::OtherSymbol),
    },
    Property {
        name: "Zs",
        kept: Kept::Category(GeneralCategory::SpaceSeparator),
    },
    Property {
        name: "Zl",
        kept: Kept::Category(GeneralCategory::LineSeparator),
    },
    Property {
        name: "Zp",
        kept: Kept::Category(GeneralCategory::ParagraphSeparator),
    },
    Property {
        name: "Cc",
        kept: Kept::Category(GeneralCategory::Control),
    },
    Property {
        name: "Cf",
        kept: Kept::Category(GeneralCategory::Format),
    },
    Property {
        name: "Co",
        kept: Kept::Category(GeneralCategory::PrivateUse),
    },
    Property {
        name: "Cn",
        kept: Kept::Category(GeneralCategory::Unassigned),
    },
    Property {
        name: "L",
        kept: Kept::Group(GeneralCategoryGroup::Letter),
    },
    Property {
        name: "M",
        kept: Kept::Group(GeneralCategoryGroup::Mark),
    },
    Property {
        name: "N",
        kept: Kept::Group(GeneralCategoryGroup::Number),
    },
    Property {
        name: "P",
        kept: Kept::Group(GeneralCategoryGroup::Punctuation),
    },
    Property {
        name: "S",
        kept: Kept::Group(GeneralCategoryGroup::Symbol),
    },
    Property {
        name: "Z",
        kept: Kept::Group(GeneralCategoryGroup::Separator),
    },
    Property {
        name: "C",
        kept: Kept::Group(GeneralCategoryGroup::Other),
    },
];
