// The listing of a ROM: assembler text, a line for each instruction, with address, bytes and base cycles behind it. It may not know what an
// instruction does, nor where the ROM comes from and the text goes to.
#![tactic(auto)]

ghost use Rattle.std.specs.Prelude.{◌≡◌, ◌&&◌, ◌++◌, ◌+◌, ◌*◌, ◌<◌, ◌≤◌, eqb, length, get_or, drop};
ghost use Rattle.upd546.specs.Instructions.{instruction};
ghost use Rattle.upd546.specs.Reports.{space};
ghost use Rattle.mnemonics.specs.Mnemonics.{leads_for};
ghost use Rattle.mnemonics.specs.Kinds.{kind_by};
ghost use Rattle.std.specs.Iterator.{YieldsFirstBy, item_count};
ghost use Rattle.text.specs.Writing.{HasRoom, Pushed};
ghost use Rattle.listing.specs.Listing.{cut, shown_kind, item_at, items_of, target, led_to, begins, label_text, field_text, statement_text, bytes_text, remark, line_text, lines_text};
ghost use Rattle.listing.specs.Listed.{item_by, items_left, columns, line_length, Listed};

mod rom;

use mnemonics::Kind;
use rom::Rom;
use text::Text;
use upd546::ROM_LENGTH;

// The text of every ROM fits this many bytes; `text_length` is the same number.
pub const TEXT_LENGTH: usize = 65536 * 2;

// An item of the listing, and the kind that it is shown as.
#[derive(Clone, Copy)]
struct Shown {
    at: u16,
    code: u8,
    second: u8,
    kind: Kind,
}

// The items of a ROM from an address on.
#[derive(Drop)]
struct ItemsFrom<'a> {
    rom: Rom<'a>,
    at: usize,
}

// WHICH ITEMS THERE ARE

// The second byte of an instruction at an address isn't the next of the ROM; `rest` is what stands after its first byte.
fn away(at: usize, rest: &[u8]) -> bool
    ensures { result ≡ cut at rest.now }
{
    at % 256 == 255 || rest.is_empty()
}

// Where its second byte stands is asked of a long kind alone: asked of every item, it makes a listing take more than twice as long.
fn kind_shown(kind: Kind, at: usize, rest: &[u8]) -> Kind
    ensures { kind_by result ≡ shown_kind (kind_by kind) (cut at rest.now) }
{
    if kind.is_long() && away(at, rest) {
        Kind::NoInstruction
    } else {
        kind
    }
}

impl<'a> Iterator for ItemsFrom<'a> {
    type Item = Shown;

    ghost next_gives = { YieldsFirstBy item_by items_left };

    ghost remaining = { item_count items_left };

    fn next(&mut self) -> Option<Shown> {
        if self.at >= self.rom.bytes.len() {
            return None;
        }
        let item = self.rom.item_at(self.at);
        self.at += item.kind.size();
        Some(item)
    }
}

impl Shown {
    // Where it leads; only a jump or a call leads anywhere.
    fn target(self) -> u16
        ensures { result ≡ target (item_by self) }
    {
        self.kind.target(self.at, self.code, self.second)
    }

    // It is a jump or a call, and leads to an address.
    fn leads_to(self, to: u16) -> bool
        ensures { result ≡ (leads_for (item_by self).kind && eqb (target (item_by self)) to) }
    {
        self.kind.leads() && self.target() == to
    }
}

impl<'a> Rom<'a> {
    // All its items.
    fn items(self) -> ItemsFrom<'a>
        ensures { (result.rom.bytes.now ≡ self.entry.bytes.now) × (items_left result ≡ items_of self.entry.bytes.now) }
    {
        ItemsFrom { rom: self, at: 0 }
    }

    fn item_at(self, at: usize) -> Shown
        requires { at < length self.bytes.now }
        ensures { item_by result ≡ item_at at (get_or self.entry.bytes.now at 0) (drop (at + 1) self.entry.bytes.now) }
    {
        let code = self.bytes[at];
        let rest = &self.bytes[at + 1..];
        let kind = self.kinds[code as usize];
        Shown {
            at: at as u16,
            code,
            second: rest.first().copied().unwrap_or(0),
            kind: kind_shown(kind, at, rest),
        }
    }

    // Some instruction of the listing leads to an address.
    fn led_to(self, to: u16) -> bool
        ensures { result ≡ led_to (items_of self.entry.bytes.now) to }
    {
        self.items().any(|item| item.leads_to(to))
    }

    // A line of the listing begins at an address.
    fn begins_at(self, to: u16) -> bool
        ensures { result ≡ begins (items_of self.entry.bytes.now) to }
    {
        self.items().any(|item| item.at == to)
    }

    // A line of the listing begins where an item leads.
    fn leads_to_a_line(self, item: Shown) -> bool
        ensures { result ≡ (leads_for (item_by item).kind && begins (items_of self.entry.bytes.now) (target (item_by item))) }
    {
        item.kind.leads() && self.begins_at(item.target())
    }

    fn statement(self, item: Shown) -> [u8; 8]
        ensures { (result ≡ statement_text (items_of self.entry.bytes.now) (item_by item)) × (length result ≡ 8) }
    {
        match item.kind {
            Kind::NoInstruction => mnemonics::byte(item.code),
            _ => {
                let word = mnemonics::entry(item.code).word;
                let shown = field(self.leads_to_a_line(item), item);
                [
                    word[0], word[1], word[2], b' ', shown[0], shown[1], shown[2], shown[3],
                ]
            }
        }
    }

    // The digit of a code's base cycles.
    fn cycles_shown(self, code: u8) -> u8
        ensures { result ≡ 48 + (instruction code).cycles }
    {
        let size = tables::size_of(self.sizes, code);
        b'0' + size.cycles
    }
}

// ITS LINE

// The label in front of a line, and a space.
fn label(led: bool, at: u16) -> [u8; 6]
    ensures { result ≡ label_text led at ++ space }
{
    if led {
        let digits = mnemonics::three(at);
        return [b'L', digits[0], digits[1], digits[2], b':', b' '];
    }
    [b' ', b' ', b' ', b' ', b' ', b' ']
}

fn field(by_label: bool, item: Shown) -> [u8; 4]
    ensures { result ≡ field_text by_label (item_by item) }
{
    if by_label {
        let digits = mnemonics::three(item.target());
        return [b'L', digits[0], digits[1], digits[2]];
    }
    item.kind.operand(item.at, item.code, item.second)
}

// Its bytes, and a space.
fn bytes_shown(item: Shown) -> [u8; 6]
    ensures { result ≡ bytes_text (item_by item) ++ space }
{
    let high = mnemonics::hex_digit(item.code / 16);
    let low = mnemonics::hex_digit(item.code);
    if item.kind.is_long() {
        let next = mnemonics::hex_digit(item.second / 16);
        return [
            high,
            low,
            b' ',
            next,
            mnemonics::hex_digit(item.second),
            b' ',
        ];
    }
    [high, low, b' ', b' ', b' ', b' ']
}

fn put_columns(text: &mut Text<'_>, rom: Rom<'_>, item: Shown)
    requires { HasRoom 14 text.old }
    ensures { Pushed text.old (columns (item_by item)) text.new × (text.new.size ≡ text.old.size + 14) }
{
    text.push(b" ; ");
    text.push(&mnemonics::three(item.at));
    text.push(&bytes_shown(item));
    text.push(&[rom.cycles_shown(item.code)]);
}

fn put_remark(text: &mut Text<'_>, item: Shown)
    requires { HasRoom 19 text.old }
    ensures { Pushed text.old (remark (item_by item)) text.new × (text.new.size ≤ text.old.size + 19) }
{
    let Kind::NoInstruction = item.kind else {
        return;
    };
    if mnemonics::entry(item.code).kind.is_long() {
        let place = mnemonics::three(steps::follows(item.at));
        text.push(b" second byte at ");
        text.push(&place[..3]);
    } else {
        text.push(b" no instruction");
    }
}

fn put_line(text: &mut Text<'_>, rom: Rom<'_>, item: Shown)
    requires { HasRoom line_length text.old }
    ensures { Pushed text.old (line_text (items_of rom.entry.bytes.now) (item_by item)) text.new × (text.new.size ≤ text.old.size + line_length) }
{
    text.push(&label(rom.led_to(item.at), item.at));
    text.push(&rom.statement(item));
    put_columns(text, rom, item);
    put_remark(text, item);
    text.push(b"\n");
}

// The lines of a ROM.
fn put_lines(text: &mut Text<'_>, rom: Rom<'_>)
    requires { HasRoom (line_length * length rom.bytes.now) text.old }
    ensures { Pushed text.old (lines_text (items_of rom.entry.bytes.now) (items_of rom.entry.bytes.now)) text.new }
{
    for item in rom.items() {
        put_line(text, rom, item);
    }
}

// THE LISTING OF A ROM, at the front of a buffer: its length. A ROM has at most 2,000 bytes; of more there is no listing, but a text of
// no bytes, as `listed_text` has it: so 0 is its length.
pub fn list(rom: &[u8], out: &mut [u8; TEXT_LENGTH]) -> usize
    ensures { Listed rom.now out.old out.new result }
{
    let length = rom.len();
    if length > ROM_LENGTH {
        return 0;
    }
    let mut text = Text::new(out);
    text.push(b"rom ");
    text.push(&mnemonics::three(length as u16)[..3]);
    text.push(b"\n");
    let sizes = tables::instruction_table();
    let kinds = mnemonics::kinds();
    put_lines(
        &mut text,
        Rom {
            bytes: rom,
            sizes: &sizes,
            kinds: &kinds,
        },
    );
    text.len()
}
