ghost use Rattle.std.specs.Prelude.{◌≡◌, IfOk, string_bytes};
ghost use Rattle.pef_report.specs.AuditLine.{audit_line, audit_end, which_text};

use no_memory::NoMemory;
use part_cost::Which;
use std::alloc::Global;

/// The line of a sequence of an index, with its newline: its term, `docs` or `freqs`, what its
/// partition in the file costs, and the least costs of allowed partitions and of all partitions, in
/// bits. An `Err` comes only where memory is refused.
pub fn audit_line(
    alloc: Global,
    term: u32,
    which: Which,
    cost: u64,
    allowed: u64,
    any: u64,
) -> Result<String, NoMemory>
    ensures { IfOk result (λ line. string_bytes line ≡ audit_line term which cost allowed any) }
{
    let name = which_name(which);
    Ok(format!(in alloc; "{term} {name} {cost} {allowed} {any}\n")?)
}

// The name of a sequence of a list.
fn which_name(which: Which) -> &'static str
    ensures { result.now ≡ which_text which }
{
    match which {
        Which::Docs => "docs",
        Which::Freqs => "freqs",
    }
}

/// The last line, with its newline: how many sequences have a line, and how many are too long for
/// one. An `Err` comes only where memory is refused.
#[tactic(auto, unfolding(crate::specs::AuditLine::audit_end))]
pub fn audit_end(alloc: Global, shown: u64, longer: u64) -> Result<String, NoMemory>
    ensures { IfOk result (λ line. string_bytes line ≡ audit_end shown longer) }
{
    Ok(format!(in alloc; "sequences {shown} longer {longer}\n")?)
}
