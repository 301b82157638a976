// Vectors, texts and values, once each.
ghost use Rattle.std.specs.Prelude.{IsTrue};

use std::process::Abort;
use std::test::Fail;
use sv_value::{Bits, Excerpt, Integer, Key, Message, MessageType, Seq, Sym, Text, Val, Word};

/// The vector has these two words.
fn has_words<R: Abort>(rt: &R, bits: Bits, value: Word, unknown: Word) {
    assert_eq!(rt; bits.words(), (value, unknown));
}

/// The vector has this symbol at a place.
fn has_symbol<R: Abort>(rt: &R, bits: Bits, i: u32, symbol: Sym) {
    assert!(rt; i < bits.width());
    assert_eq!(rt; bits.bit(i), symbol);
}

/// The bytes are these.
fn reads<R: Abort>(rt: &R, bytes: &[u8], wanted: &[u8]) {
    assert_eq!(rt; bytes, wanted);
}

/// The test holds.
fn holds<R: Abort>(rt: &R, test: bool)
    ensures { IsTrue test }
{
    assert!(rt; test);
}

#[test]
fn symbols_of_vectors(rt: HostRuntime) {
    let bits = Bits::truncated(8, true, 0b1011_0110, 0b0110_0000);
    has_symbol(&rt, bits, 1, Sym::One);
    has_symbol(&rt, bits, 3, Sym::Zero);
    has_symbol(&rt, bits, 6, Sym::X);
    has_symbol(&rt, bits, 5, Sym::Z);
    holds(&rt, bits.width() == 8);
    holds(&rt, bits.signed());
    holds(&rt, bits.number().is_none());
    has_words(&rt, bits.to_two_state(), 0b1001_0110, 0);
    has_words(&rt, bits.resize(12, true), 0b1111_1011_0110, 0b0110_0000);
    has_words(&rt, bits.resize(4, false), 0b0110, 0);
}

#[test]
fn parts_of_vectors(rt: HostRuntime) {
    let bits = Bits::new(8, true, 0b1011_0110, 0b0110_0000);
    holds(&rt, bits.width() == 8);
    let slice = bits.slice(3, 3);
    has_words(&rt, slice, 0b110, 0b100);
    holds(&rt, !slice.signed());
    let part = Bits::new(2, false, 0b10, 0b01);
    holds(&rt, part.width() == 2);
    has_words(&rt, bits.with_part(1, part), 0b1011_0100, 0b0110_0010);
    let unsigned = bits.resize(8, false);
    holds(&rt, unsigned.width() == 8);
    holds(&rt, bits.same(&unsigned));
    holds(&rt, !bits.equals(&unsigned));
}

#[test]
fn numbers_of_vectors(rt: HostRuntime) {
    let minus_seven = Bits::new(4, true, 0b1001, 0);
    let two = Bits::new(4, true, 0b0010, 0);
    assert_eq!(rt; minus_seven.number(), Some(9));
    assert_eq!(rt; minus_seven.amount(), u64::MAX - 6);
    let seven = Integer::of(minus_seven, true);
    assert_eq!(rt; (seven.is_negative(), seven.size()), (true, 7));
    assert_eq!(rt; seven.word(), Word::MAX - 6);
    holds(&rt, seven.is_less(&Integer::of(two, true)));
}

#[test]
fn texts(rt: HostRuntime) -> Result<(), Fail> {
    let alloc = rt.alloc();
    let mut text = Text::new(alloc);
    text.push_all(b"ab")?;
    text.push_copies(b'c', 3)?;
    reads(&rt, text.bytes(), b"abccc");
    let whole = Excerpt::new(alloc, text.bytes())?;
    holds(&rt, whole.bytes().len() == 5);
    let part = whole.part(1, 3)?;
    reads(&rt, part.share()?.bytes(), b"bcc");
    holds(&rt, !part.equals(&whole));
    Ok(())
}

#[test]
fn values(rt: HostRuntime) -> Result<(), Fail> {
    let alloc = rt.alloc();
    let mut text = Text::new(alloc);
    text.push_all(b"ab")?;
    let text = Val::Text(text);
    let copy = text.copy(alloc)?;
    holds(&rt, copy.equals(&text));
    let one = Val::Bits(Bits::one_bit(Sym::One));
    holds(&rt, !one.equals(&Val::Bits(Bits::one_bit(Sym::Z))));
    holds(&rt, one.equals(&one.copy(alloc)?));
    holds(&rt, !Val::Object(None).equals(&Val::Object(Some(Key(0)))));
    let message = Message {
        value: copy,
        written: MessageType::Text,
    };
    holds(&rt, message.copy(alloc)?.value.equals(&text));
    Ok(())
}

#[test]
fn lists(rt: HostRuntime) -> Result<(), Fail> {
    let mut list = Seq::new(rt.alloc());
    list.push(Val::Event(Key(0)))?;
    holds(&rt, list.as_slice().len() == 1);
    holds(&rt, Seq::from_vec(list.into_vec()).as_slice().len() == 1);
    Ok(())
}
