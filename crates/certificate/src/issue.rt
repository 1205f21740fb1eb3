// How the certificate is found.
ghost use Rattle.std.specs.Prelude.{IfOk};
ghost use Rattle.rules.specs.Verdict.{Certified};
ghost use Rattle.image.specs.Held.{meant};

use crate::bounds::scan_bound;
use crate::contents::Certificate;
use crate::stack::stack_of;
use std::alloc::{AllocError, Global};
use verdict::accepted::Accepted;

/// The certificate of an accepted program.
pub fn certificate(program: &Accepted, heap: Global) -> Result<Certificate, AllocError>
    ensures { IfOk result (λ c. Certified (meant program.now.formed.layout.program) c.lines c.stack c.scan) }
{
    let stack = stack_of(&program.formed, heap)?;
    let scan = scan_bound(&program.formed, heap)?;
    Ok(Certificate {
        lines: program.formed.layout.program.lines.len(),
        stack,
        scan,
    })
}
