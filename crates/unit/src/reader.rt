ghost use Rattle.std.specs.Prelude.{◌≡◌};
ghost use Rattle.rules.specs.Boot.{boot_rule};
ghost use Rattle.unit.specs.Rows.{read_as, table_as};

use crate::fields::PageFields;
use crate::row::Row;
use vocabulary::refusal::Refusal;

/// The page fields that the boot table sets: at most 1,024 bytes, in rows of four, each of which
/// begins at no earlier page than the row before. An empty table sets nothing.
pub fn read_table(bytes: &[u8]) -> Result<PageFields, Refusal>
    ensures { read_as result ≡ table_as (boot_rule bytes.now) }
{
    let (rows, rest) = bytes.as_chunks::<4>();
    if !rest.is_empty() || bytes.len() > 1024 {
        return Err(Refusal::TableLength);
    }
    let mut fields = PageFields::none();
    let mut earlier = 0;
    for (number, row) in rows.iter().enumerate() {
        let row = Row::parse(row).ok_or(Refusal::BadRow(number))?;
        if row.first < earlier {
            return Err(Refusal::RowOrder(number));
        }
        row.set(&mut fields);
        earlier = row.first;
    }
    Ok(fields)
}
