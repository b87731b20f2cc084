// The declaration of signals.
ghost use Rattle.std.specs.Prelude.{◌≤◌};
ghost use Rattle.text.specs.Placing.{Wrote};
ghost use Rattle.wave.specs.Header.{declaration, declarations};

use text::Page;

// A signal for each channel.
pub fn channels(page: &mut Page, width: u64, first: u8, name: &[u8])
    requires { first ≤ 97 }
    ensures { Wrote page.old (declarations 16 width first name.now) page.new }
{
    for c in 0..16 {
        signal(page, width, first + c, name, u64::from(c));
    }
}

fn signal(page: &mut Page, width: u64, id: u8, name: &[u8], c: u64)
    ensures { Wrote page.old (declaration width id name.now c) page.new }
{
    page.text(b"$var wire ");
    printing::decimal(page, width);
    page.text(&[b' ', id, b' ']);
    page.text(name);
    printing::decimal(page, c);
    page.text(b" $end\n");
}
