//! Writing the numbers of an address, and reading an address by the three that most of a mesh
//! share.
ghost use Rattle.std.specs.Prelude.{◌≡◌, ◌<◌, ◌≤◌, ◌+◌, ◌/◌, ◌%◌, ◌++◌, ◌∷◌, [], length, take, IfSome};
ghost use Rattle.std.specs.Fmt.{decimal};
ghost use Rattle.std.specs.Option.{option_map};
ghost use Rattle.mesh_base.specs.Addresses.{address_of, dotted_decimal};
ghost use Rattle.mesh_base.specs.InlineBytes.{inline_bytes};
ghost use Rattle.mesh_base.specs.Stems.{stem_of, IsStem};

use crate::addr::{Addr, octet};
use crate::few::{InlineBytes, ShortText};
use crate::limits::{ADDRESS_WIDTH, LINE_CAPACITY};
use crate::line_buf::{LineBuf, push_one_to_four, push_six_to_twelve};
use crate::text::are_equal;

// The numbers below 256, each with a dot, in chunks of four bytes.
static OCTETS: [[u8; 4]; 256] = [
    *b"0.  ", *b"1.  ", *b"2.  ", *b"3.  ", *b"4.  ", *b"5.  ", *b"6.  ", *b"7.  ", *b"8.  ",
    *b"9.  ", *b"10. ", *b"11. ", *b"12. ", *b"13. ", *b"14. ", *b"15. ", *b"16. ", *b"17. ",
    *b"18. ", *b"19. ", *b"20. ", *b"21. ", *b"22. ", *b"23. ", *b"24. ", *b"25. ", *b"26. ",
    *b"27. ", *b"28. ", *b"29. ", *b"30. ", *b"31. ", *b"32. ", *b"33. ", *b"34. ", *b"35. ",
    *b"36. ", *b"37. ", *b"38. ", *b"39. ", *b"40. ", *b"41. ", *b"42. ", *b"43. ", *b"44. ",
    *b"45. ", *b"46. ", *b"47. ", *b"48. ", *b"49. ", *b"50. ", *b"51. ", *b"52. ", *b"53. ",
    *b"54. ", *b"55. ", *b"56. ", *b"57. ", *b"58. ", *b"59. ", *b"60. ", *b"61. ", *b"62. ",
    *b"63. ", *b"64. ", *b"65. ", *b"66. ", *b"67. ", *b"68. ", *b"69. ", *b"70. ", *b"71. ",
    *b"72. ", *b"73. ", *b"74. ", *b"75. ", *b"76. ", *b"77. ", *b"78. ", *b"79. ", *b"80. ",
    *b"81. ", *b"82. ", *b"83. ", *b"84. ", *b"85. ", *b"86. ", *b"87. ", *b"88. ", *b"89. ",
    *b"90. ", *b"91. ", *b"92. ", *b"93. ", *b"94. ", *b"95. ", *b"96. ", *b"97. ", *b"98. ",
    *b"99. ", *b"100.", *b"101.", *b"102.", *b"103.", *b"104.", *b"105.", *b"106.", *b"107.",
    *b"108.", *b"109.", *b"110.", *b"111.", *b"112.", *b"113.", *b"114.", *b"115.", *b"116.",
    *b"117.", *b"118.", *b"119.", *b"120.", *b"121.", *b"122.", *b"123.", *b"124.", *b"125.",
    *b"126.", *b"127.", *b"128.", *b"129.", *b"130.", *b"131.", *b"132.", *b"133.", *b"134.",
    *b"135.", *b"136.", *b"137.", *b"138.", *b"139.", *b"140.", *b"141.", *b"142.", *b"143.",
    *b"144.", *b"145.", *b"146.", *b"147.", *b"148.", *b"149.", *b"150.", *b"151.", *b"152.",
    *b"153.", *b"154.", *b"155.", *b"156.", *b"157.", *b"158.", *b"159.", *b"160.", *b"161.",
    *b"162.", *b"163.", *b"164.", *b"165.", *b"166.", *b"167.", *b"168.", *b"169.", *b"170.",
    *b"171.", *b"172.", *b"173.", *b"174.", *b"175.", *b"176.", *b"177.", *b"178.", *b"179.",
    *b"180.", *b"181.", *b"182.", *b"183.", *b"184.", *b"185.", *b"186.", *b"187.", *b"188.",
    *b"189.", *b"190.", *b"191.", *b"192.", *b"193.", *b"194.", *b"195.", *b"196.", *b"197.",
    *b"198.", *b"199.", *b"200.", *b"201.", *b"202.", *b"203.", *b"204.", *b"205.", *b"206.",
    *b"207.", *b"208.", *b"209.", *b"210.", *b"211.", *b"212.", *b"213.", *b"214.", *b"215.",
    *b"216.", *b"217.", *b"218.", *b"219.", *b"220.", *b"221.", *b"222.", *b"223.", *b"224.",
    *b"225.", *b"226.", *b"227.", *b"228.", *b"229.", *b"230.", *b"231.", *b"232.", *b"233.",
    *b"234.", *b"235.", *b"236.", *b"237.", *b"238.", *b"239.", *b"240.", *b"241.", *b"242.",
    *b"243.", *b"244.", *b"245.", *b"246.", *b"247.", *b"248.", *b"249.", *b"250.", *b"251.",
    *b"252.", *b"253.", *b"254.", *b"255.",
];

// How many bytes of its chunk each number and its dot take.
static WIDTHS: [u8; 256] = [
    2, 2, 2, 2, 2, 2, 2, 2, 2, 2, 3, 3, 3, 3, 3, 3, 3, 3, 3, 3, 3, 3, 3, 3, 3, 3, 3, 3, 3, 3, 3, 3,
    3, 3, 3, 3, 3, 3, 3, 3, 3, 3, 3, 3, 3, 3, 3, 3, 3, 3, 3, 3, 3, 3, 3, 3, 3, 3, 3, 3, 3, 3, 3, 3,
    3, 3, 3, 3, 3, 3, 3, 3, 3, 3, 3, 3, 3, 3, 3, 3, 3, 3, 3, 3, 3, 3, 3, 3, 3, 3, 3, 3, 3, 3, 3, 3,
    3, 3, 3, 3, 4, 4, 4, 4, 4, 4, 4, 4, 4, 4, 4, 4, 4, 4, 4, 4, 4, 4, 4, 4, 4, 4, 4, 4, 4, 4, 4, 4,
    4, 4, 4, 4, 4, 4, 4, 4, 4, 4, 4, 4, 4, 4, 4, 4, 4, 4, 4, 4, 4, 4, 4, 4, 4, 4, 4, 4, 4, 4, 4, 4,
    4, 4, 4, 4, 4, 4, 4, 4, 4, 4, 4, 4, 4, 4, 4, 4, 4, 4, 4, 4, 4, 4, 4, 4, 4, 4, 4, 4, 4, 4, 4, 4,
    4, 4, 4, 4, 4, 4, 4, 4, 4, 4, 4, 4, 4, 4, 4, 4, 4, 4, 4, 4, 4, 4, 4, 4, 4, 4, 4, 4, 4, 4, 4, 4,
    4, 4, 4, 4, 4, 4, 4, 4, 4, 4, 4, 4, 4, 4, 4, 4, 4, 4, 4, 4, 4, 4, 4, 4, 4, 4, 4, 4, 4, 4, 4, 4,
];

// The chunk of a number below 256.
#[inline]
fn chunk(n: u32) -> [u8; 4]
    requires { n < 256 }
    ensures { take (length (decimal n) + 1) result ≡ decimal n ++ 46 ∷ [] }
{
    OCTETS[n as usize]
}

// How many bytes of its chunk a number below 256 and its dot take.
#[inline]
fn width(n: u32) -> usize
    requires { n < 256 }
    ensures value { result ≡ length (decimal n) + 1 }
    ensures some { 2 ≤ result }
    ensures short { result ≤ 4 }
{
    WIDTHS[n as usize] as usize
}

// Appends a number below 256 and a dot.
#[inline]
fn push_octet_dot(out: &mut LineBuf, n: u32)
    requires octet { n < 256 }
    requires room { length out.old.items + 4 ≤ LINE_CAPACITY }
    ensures text { out.new.items ≡ out.old.items ++ (decimal n ++ 46 ∷ []) }
    ensures length { length out.new.items ≤ length out.old.items + 4 }
{
    push_one_to_four(out, &chunk(n), width(n));
}

// Appends a number below 256.
#[inline(always)]
fn push_octet(out: &mut LineBuf, n: u32)
    requires octet { n < 256 }
    requires room { length out.old.items + 3 ≤ LINE_CAPACITY }
    ensures text { out.new.items ≡ out.old.items ++ decimal n }
    ensures length { length out.new.items ≤ length out.old.items + 3 }
{
    push_one_to_four(out, &chunk(n), width(n) - 1);
}

/// Appends an address in its written form: at most 15 bytes.
pub fn write_dotted(a: Addr, out: &mut LineBuf)
    requires { length out.old.items + ADDRESS_WIDTH ≤ LINE_CAPACITY }
    ensures text { out.new.items ≡ out.old.items ++ dotted_decimal a.0 }
    ensures length { length out.new.items ≤ length out.old.items + ADDRESS_WIDTH }
{
    push_octet_dot(out, a.0 / 16777216);
    push_octet_dot(out, a.0 / 65536 % 256);
    push_octet_dot(out, a.0 / 256 % 256);
    push_octet(out, a.0 % 256);
}

// Writes a number below 256 and a dot to the cells from `at` on. The result is where they end.
#[inline(always)]
fn join(cells: &mut [u8; 16], at: usize, n: u32) -> usize
    requires octet { n < 256 }
    requires room { at ≤ 12 }
    ensures text { take result cells.new ≡ take at cells.old ++ (decimal n ++ 46 ∷ []) }
    ensures some { at + 2 ≤ result }
    ensures length { result ≤ at + 4 }
{
    cells[at..at + 4].copy_from_slice(&chunk(n));
    at + width(n)
}

/// An address in its written form.
pub fn dotted(a: Addr) -> ShortText
    ensures { inline_bytes result ≡ dotted_decimal a.0 }
{
    let mut cells = [0; 16];
    let x = join(&mut cells, 0, a.0 / 16777216);
    let y = join(&mut cells, x, a.0 / 65536 % 256);
    let z = join(&mut cells, y, a.0 / 256 % 256);
    let end = join(&mut cells, z, a.0 % 256);
    InlineBytes::front_of(cells, end - 1)
}

/// The first three numbers of an address in their written form, each with its dot.
#[derive(Clone, Copy)]
pub(crate) struct Stem {
    // An address divided by 256.
    high: u32,
    cells: [u8; 16],
    width: usize,
    ghost stem: { IsStem high cells width },
}

impl Stem {
    /// The first three numbers of an address.
    pub(crate) fn of(a: Addr) -> Stem {
        let mut cells = [0; 16];
        let x = join(&mut cells, 0, a.0 / 16777216);
        let y = join(&mut cells, x, a.0 / 65536 % 256);
        let z = join(&mut cells, y, a.0 / 256 % 256);
        Stem {
            high: a.0 / 256,
            cells,
            width: z,
        }
    }

    // What comes after these numbers in a text that begins with them. None doesn't mean that it
    // begins otherwise: numbers of more than eight bytes, with their dots, aren't compared.
    #[inline(always)]
    fn behind<'t>(&self, text: &'t [u8]) -> Option<&'t [u8]>
        ensures { IfSome result (λ rest. text.now ≡ stem_of self.now.high ++ rest.now) }
    {
        if self.width > 8 {
            return None;
        }
        let (front, rest) = text.split_at_checked(self.width)?;
        let (numbers, _) = self.cells.split_at_checked(self.width)?;
        let starts = are_equal(front.first_chunk::<4>()?, numbers.first_chunk::<4>()?);
        let ends = are_equal(front.last_chunk::<4>()?, numbers.last_chunk::<4>()?);
        if starts && ends { Some(rest) } else { None }
    }

    /// Reads an address as `Addr::parse` does. If it begins with these numbers, mostly only its
    /// last number has to be read, unless these have more than 8 bytes with their dots.
    #[inline(always)]
    #[tactic(auto, using(crate::proofs::StemLaws::stem_and_last))]
    pub(crate) fn read(&self, text: &[u8]) -> Option<Addr>
        ensures { option_map (λ a. a.0) result ≡ address_of text.now }
    {
        if let Some(last) = self.behind(text) {
            if let Some(z) = octet(last) {
                return Some(Addr(256 * self.high + z));
            }
        }
        Addr::parse(text)
    }

    /// An address in its written form. If these are its first three numbers, they are copied whole.
    #[inline(always)]
    pub(crate) fn dotted(&self, a: Addr) -> ShortText
        ensures { inline_bytes result ≡ dotted_decimal a.0 }
    {
        if a.0 / 256 != self.high {
            return dotted(a);
        }
        let mut cells = self.cells;
        let end = join(&mut cells, self.width, a.0 % 256);
        InlineBytes::front_of(cells, end - 1)
    }

    /// Appends an address in its written form. If these are its first three numbers, they are
    /// copied whole.
    #[inline(always)]
    pub(crate) fn write(&self, a: Addr, out: &mut LineBuf)
        requires { length out.old.items + ADDRESS_WIDTH ≤ LINE_CAPACITY }
        ensures text { out.new.items ≡ out.old.items ++ dotted_decimal a.0 }
        ensures length { length out.new.items ≤ length out.old.items + ADDRESS_WIDTH }
    {
        if a.0 / 256 == self.high {
            push_six_to_twelve(out, &self.cells, self.width);
            push_octet(out, a.0 % 256);
        } else {
            write_dotted(a, out);
        }
    }
}
