// Reading a carrier into a lent table, a row a payload.
#![tactic(auto)]

ghost use Rattle.std.specs.Prelude.{◌≡◌, length};
ghost use Rattle.emdf_format.specs.Reading.{reading};
ghost use Rattle.emdf_format.specs.Calls.{in_table};
ghost use Rattle.emdf_records_plan.specs.Records.{GivesRecords};

use emdf_format::{PayloadRow, RecordsError};
use openjoc_emdf::ParsedEmdf;

// Reads the carrier at the start of bytes, and puts a row of each payload into the table.
pub fn parse_emdf_sync_with_bit_trace(
    bytes: &[u8],
    table: &mut [PayloadRow],
) -> Result<ParsedEmdf, RecordsError>
    ensures { GivesRecords (in_table (length table.old) (reading bytes.now)) table.old result table.new }
{
    let (parsed, first) = emdf_records_plan::plan_records(bytes, table.len())?;
    let n = parsed.bytes_consumed.0;
    let carrier = &bytes[..n];
    // With slots, payloads of different ids seldom search each other's rows.
    let mut slots = [0u64; emdf_ordinals::SLOTS];
    let mut at = first;
    for place in 0..parsed.container.payloads {
        let (payload, next) = match emdf_payloads::next_payload(carrier, at) {
            Ok((Some(payload), next)) => (payload, next),
            Ok((None, _)) => unreachable!("so many payloads were counted"),
            Err(_) => unreachable!("the whole carrier was read"),
        };
        let rows = emdf_ordinals::take_slot(&mut slots, payload.id, place);
        emdf_records_row::put_row(table, place, rows, payload);
        at = next;
    }
    Ok(parsed)
}
