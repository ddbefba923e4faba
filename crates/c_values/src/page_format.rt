//! Page formats by their numbers, as C passes them.
ghost use Rattle.std.specs.Prelude.{◌≡◌, ◌≢◌, ◌⊎◌, None, Some};
ghost use Rattle.merkle_tree_theory.specs.declared.page_format.PageFormat.TheVariants.{V1, V2};

use merkle_tree_theory::PageFormat;

/// The page format of a number, which is 1 or 2.
pub fn format_of(number: u8) -> Option<PageFormat>
    ensures v1 { number ≡ 1 → result ≡ Some V1 }
    ensures v2 { number ≡ 2 → result ≡ Some V2 }
    ensures some { result ≢ None → (number ≡ 1) ⊎ (number ≡ 2) }
    ensures none { result ≡ None → (number ≢ 1) × (number ≢ 2) }
{
    match number {
        1 => Some(PageFormat::V1),
        2 => Some(PageFormat::V2),
        _ => None,
    }
}
