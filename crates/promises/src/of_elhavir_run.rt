ghost use Rattle.historian.specs.Entries.{EntryRuns};

pub fn elhavir_run(sheet: &[u8], room: u32, cuts: &mut [u8], rows: &mut [u8]) -> u64
    ensures { EntryRuns sheet.now room cuts.old rows.old result cuts.new rows.new }
{
    historian::elhavir_run(sheet, room, cuts, rows)
}
