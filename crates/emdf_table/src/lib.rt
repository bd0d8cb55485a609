// A reading into a table that is handed back by value: for callers who hold none.
#![tactic(auto)]

ghost use Rattle.std.specs.Prelude.{◌≡◌, ◌≤◌, replicate};
ghost use Rattle.emdf_format.specs.Reading.{reading};
ghost use Rattle.emdf_format.specs.Calls.{in_table, table_after};
ghost use Rattle.emdf_records_plan.specs.Records.{records_answer};

use emdf_format::{PayloadRow, RecordsError};
use openjoc_emdf::ParsedEmdf;

// What the reading answers, and the table after it.
#[derive(Drop)]
pub struct ReadTable {
    pub answer: Result<ParsedEmdf, RecordsError>,
    pub table: [PayloadRow; 512],
}

// Lends the first rows of a table whose rows are all the same, and hands the table back.
pub fn read_table(bytes: &[u8], blank: PayloadRow, rows: usize) -> ReadTable
    requires { rows ≤ 512 }
    ensures { (result.answer ≡ records_answer (in_table rows (reading bytes.now))) × (result.table ≡ table_after (in_table rows (reading bytes.now)) (replicate 512 blank)) }
{
    let mut table = [blank; 512];
    let answer = emdf_records::parse_emdf_sync_with_bit_trace(bytes, &mut table[..rows]);
    ReadTable { answer, table }
}
