// The front of a file, before its reply part.
ghost use Rattle.std.specs.Prelude.{◌≡◌, ◌≤◌, length, IfOk};
ghost use Rattle.sy_scope.specs.Fronts.{front, front_length};
ghost use Rattle.sy_scope_names.specs.Jobs.{wished};
ghost use Rattle.sy_scope_steps.specs.Files.{file_read};
ghost use Rattle.sy_scope.specs.Fit.{JobFits};
ghost use Rattle.sy_scope.specs.Own.{FilesAreFronts};
ghost use Rattle.sy_scope.specs.Read.{ReadsFile, wish_in};

use crate::beginning::reply_start;
use crate::file::read_file;
use crate::job::Job;
use std::alloc::Global;
use sy_scope_ends::ScopeEnd;

/// Reads the front of a file of at most 4,194,304 bytes as `read_file` reads a file, and gives the offset of its reply
/// part too: that of the first item that is an atom, the empty list, or a list whose first part is no symbol; the
/// number of bytes, where there is none. Out of memory is `Want`.
pub fn read_front(alloc: Global, bytes: &[u8]) -> Result<(Job, usize), ScopeEnd>
    requires { length bytes.now ≤ 4194304 }
    ensures start { IfOk result (λ x. x.1 ≡ front_length bytes.now) }
    ensures within { IfOk result (λ x. x.1 ≤ length bytes.now) }
    ensures read { ReadsFile (λ x. wish_in x.0) result (wished (file_read (front bytes.now))) }
    ensures fit { IfOk result (λ x. JobFits x.0) }
{
    let start = reply_start(alloc, bytes)?;
    let job = read_file(alloc, &bytes[..start])?;
    Ok((job, start))
}

/// A file of the profile has no reply part: it is its own front.
pub fn files_are_fronts()
    ensures { FilesAreFronts }
{}
