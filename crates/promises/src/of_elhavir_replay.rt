ghost use Rattle.historian.specs.ReplayEntry.{EntryReplays};

pub fn elhavir_replay(model: &[u8], sheet: &[u8], log: &[u8], rows: &mut [u8]) -> u64
    ensures { EntryReplays model.now sheet.now log.now rows.old result rows.new }
{
    historian::elhavir_replay(model, sheet, log, rows)
}
