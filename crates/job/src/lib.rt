// Job files: docs/RULES.md, 'Job file and program'. A program opens a file (`job_open`), runs its records one after the other (`job_run`), ends it
// (`job_check`), and tells the first refusal (`lines::tell`). Each call is lent a window: a part of the file that begins at an offset. Here stand its bytes, and what can be wrong with a file itself.
#![tactic(auto)]

ghost use Rattle.std.specs.Prelude.{◌≡◌, get_or};

pub mod fault;

// What `job_open::open` answers where it is done: how many bytes the file may have, the number of records, where the first begins, and how long the line is.
#[derive(Clone, Copy)]
pub struct Opened {
    pub limit: u32,
    pub count: usize,
    pub next: usize,
    pub length: usize,
}

// What `job_run::run` answers where it is done: how many bytes the record has, and how long the line is.
#[derive(Clone, Copy)]
pub struct Ran {
    pub size: usize,
    pub length: usize,
}

// The byte at an offset, 0 where there is none.
pub fn byte_at(window: &[u8], at: usize) -> u8
    ensures { result ≡ get_or window.now «at» 0 }
{
    window.get(at).copied().unwrap_or(0)
}
