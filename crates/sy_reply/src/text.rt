// Appending text.
ghost use Rattle.std.specs.Prelude.{◌≡◌, ◌++◌, OnOk};

use sy_io::Bytes;
use sy_seq::Want;

/// Appends the bytes of the text.
pub fn put(out: &mut Bytes, text: &str) -> Result<(), Want>
    ensures { OnOk result (out.new ≡ out.old ++ text.now) }
{
    out.append(text.as_bytes())
}
