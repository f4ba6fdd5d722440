// Numbers as items.
ghost use Rattle.std.specs.Prelude.{◌≡◌, ◌<◌, ◌^◌, ◌++◌, OnOk};
ghost use Rattle.sy_text_items.specs.Views.{item_of};
ghost use Rattle.sy_text.specs.Spelling.{item_text};
ghost use Rattle.sy_proof.specs.Lists.{number_item};
ghost use Rattle.sy_proof.specs.Numbers.{small_in};

use sy_forms_items::numeral;
use sy_io::Bytes;
use sy_seq::Want;
use sy_text::write_numeral;
use sy_text_items::Sexp;

/// The number below 2^32 that the item is; `None` exactly where it is none.
pub(crate) fn small(item: &Sexp) -> Option<u32>
    ensures { result ≡ small_in (item_of item.now) }
{
    match numeral(item) {
        Some(n) => u32::try_from(n).ok(),
        None => None,
    }
}

/// Appends the number.
#[tactic(auto, unfolding(sy_text::specs::Spelling::atom_text))]
pub(crate) fn put_number(out: &mut Bytes, n: u32) -> Result<(), Want>
    ensures text { OnOk result (out.new ≡ out.old ++ item_text (number_item n)) }
    ensures small { n < 2 ^ 32 }
{
    write_numeral(out, u128::from(n))
}
