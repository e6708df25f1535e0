// Tests of bytes.
ghost use Rattle.std.specs.Prelude.{◌↔◌, IsTrue};
ghost use Rattle.vex_lex.specs.Bytes.{IsWhite, IsSeparator, EndsWord, IsControl};

pub fn is_white(byte: u8) -> bool
    ensures { IsTrue result ↔ IsWhite byte }
{
    matches!(byte, 0x09..=0x0d | b' ')
}

pub fn is_separator(byte: u8) -> bool
    ensures { IsTrue result ↔ IsSeparator byte }
{
    is_white(byte) || matches!(byte, b'=' | b':' | b';')
}

pub fn ends_word(byte: u8) -> bool
    ensures { IsTrue result ↔ EndsWord byte }
{
    is_separator(byte) || byte == b'*'
}

pub fn is_control(byte: u8) -> bool
    ensures { IsTrue result ↔ IsControl byte }
{
    byte < 0x20 && !is_white(byte) || byte == 0x7f
}
