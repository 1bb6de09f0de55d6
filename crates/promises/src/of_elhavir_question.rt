ghost use Rattle.historian.specs.Entries.{EntryAsks};

pub fn elhavir_question(model: &[u8], sheet: &[u8], states: &[u8], estimates: &mut [u8]) -> u32
    ensures { EntryAsks model.now sheet.now states.now estimates.old result estimates.new }
{
    historian::elhavir_question(model, sheet, states, estimates)
}
