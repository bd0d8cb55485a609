// All that is read and asked before the first row of a table is filled.
#![tactic(auto)]

ghost use Rattle.std.specs.Prelude.{◌≡◌};
ghost use Rattle.emdf_format.specs.Reading.{reading};
ghost use Rattle.emdf_records_plan.specs.Records.{records_plan};

use emdf_format::RecordsError;
use openjoc_bitio::BitCursor;
use openjoc_emdf::ParsedEmdf;

// The carrier at the start of bytes, whose payloads have room in so many rows, and the cursor at the first of them.
pub fn plan_records(bytes: &[u8], rows: usize) -> Result<(ParsedEmdf, BitCursor), RecordsError>
    ensures { result ≡ records_plan rows bytes.now (reading bytes.now) }
{
    let (parsed, first) = openjoc_emdf::open_carrier(bytes).map_err(RecordsError::Emdf)?;
    let payloads = parsed.container.payloads;
    if rows < payloads {
        return Err(RecordsError::TableTooShort { payloads });
    }
    Ok((parsed, first))
}
