// The count of failed system calls.
ghost use Rattle.std.specs.Prelude.{◌≡◌, ◌≤◌, Ok, OnErr, IfOk};
ghost use Rattle.spec_image.specs.Told.{Rises};

use blk_io::Failed;
use std::io;

/// What a system call answered, with its failure counted.
pub fn counted<T>(answer: io::Result<T>, faults: &mut u64) -> Result<T, Failed>
    ensures answer { IfOk result (λ value. answer ≡ Ok value) }
    ensures later { faults.old ≤ faults.new }
    ensures failed { OnErr result (Rises faults.old faults.new) }
{
    match answer {
        Ok(value) => Ok(value),
        Err(_) => {
            *faults = faults.saturating_add(1);
            Err(Failed)
        }
    }
}
