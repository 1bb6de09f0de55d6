ghost use Rattle.std.specs.Prelude.{◌≤◌, length};
ghost use Rattle.lines.specs.Lines.{output_bytes, Prints};

// What its caller, the program, has to see to stays as it is: a buffer that holds the longest change sheet.
pub fn put_printed(input: &[u8], out: &mut [u8]) -> usize
    requires { output_bytes ≤ length out.old }
    ensures { Prints input.now out.old result out.new }
{
    lines::put_printed(input, out)
}
