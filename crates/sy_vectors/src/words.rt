// Values from outside: the table is what z3 4.8.12 answers (tools/word_vectors.py).

/// Rotations by more bits than files name, the vectors that are rotated, and their values.
pub const ROWS: &str = "\
rotate_left,203 1:1|1:1
rotate_right,203 1:1|1:1
rotate_left,203 8:28|8:224
rotate_right,203 8:28|8:131
rotate_left,203 32:191213647|32:763525211
rotate_right,203 32:191213647|32:165768374
rotate_left,203 63:23|63:376832
rotate_right,203 63:23|63:12947848928690176
rotate_left,203 64:6173428469056118254|64:7161814135887327917
rotate_right,203 64:6173428469056118254|64:13675942838066482163
";
