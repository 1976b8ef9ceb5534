use super::*;
use rp_base::{Refused, Why};
use std::test::Fail;

#[test]
fn each_fault_has_its_place(rt: HostRuntime) -> Result<(), Fail> {
    for (text, at, why) in [
        (b"a $".as_slice(), 2, Why::BadByte),
        (b"a\r\n", 1, Why::BadByte),
        (b"x #include <core.p4>", 2, Why::BadByte),
        (b"/* */ #include <core.p4>", 6, Why::BadByte),
        (b"x = 1__2;", 4, Why::BadNumber),
        (b"x = 1_;", 4, Why::BadNumber),
        (b"12ab 0", 0, Why::BadNumber),
        (b" 0x", 1, Why::BadNumber),
        (b"0b2", 0, Why::BadNumber),
        (b"0w1", 0, Why::BadNumber),
        (b"129w1", 0, Why::BadNumber),
        (b"8W1", 0, Why::BadNumber),
        (b"8w", 0, Why::BadNumber),
        (
            b"- 340282366920938463463374607431768211456",
            2,
            Why::BadNumber,
        ),
        (b"a /* b\n*", 2, Why::OpenComment),
        (b"/*/", 0, Why::OpenComment),
        (b"  #include <core.p4> \n", 2, Why::Directive),
        (b"a\n#define x", 2, Why::Directive),
        (b"#include <rp.p4>\r", 0, Why::Directive),
        (b"$ /*", 0, Why::BadByte),
    ] {
        assert_eq!(rt;
            Tokens::read(rt.alloc(), text).err(),
            Some(LexEnd::Refused(Refused { at, why }))
        );
    }
    Ok(())
}

#[test]
fn the_longest_sign_is_taken(rt: HostRuntime) -> Result<(), Fail> {
    let text = b"a&&&b>>=|+|<<== _ !".as_slice();
    let tokens = Tokens::read(rt.alloc(), text)?;
    let wanted = [
        (0, 1, None),
        (1, 4, Some(Sign::Mask)),
        (4, 5, None),
        (5, 7, Some(Sign::ShiftRight)),
        (7, 8, Some(Sign::Assign)),
        (8, 11, Some(Sign::SatPlus)),
        (11, 13, Some(Sign::ShiftLeft)),
        (13, 15, Some(Sign::Equal)),
        (16, 17, Some(Sign::Any)),
        (18, 19, Some(Sign::Not)),
    ];
    assert_eq!(rt; tokens.as_slice().len(), wanted.len());
    for (token, (at, end, sign)) in tokens.as_slice().iter().zip(wanted.iter()) {
        assert!(rt; token.at == *at && token.end == *end);
        match &token.lexeme {
            Lexeme::Sign(s) => assert_eq!(rt; Some(*s), *sign),
            Lexeme::Name(_) => assert!(rt; sign.is_none()),
            Lexeme::Number { .. } => assert!(rt; false),
        }
    }
    Ok(())
}

#[test]
fn numbers_and_reserved_words_are_read(rt: HostRuntime) -> Result<(), Fail> {
    for (text, value, width) in [
        (b"#include <rp.p4>\n 1_0 //".as_slice(), 10, None),
        (b"\t#include <core.p4>\n007", 7, None),
        (b"08w0b1_01/**/", 5, Some(8)),
        (b"0XfF", 255, None),
        (b"128w0o17", 15, Some(128)),
        (b"340282366920938463463374607431768211455", u128::MAX, None),
    ] {
        let tokens = Tokens::read(rt.alloc(), text)?;
        assert_eq!(rt; tokens.as_slice().len(), 1);
        for token in tokens.as_slice() {
            assert!(rt;
                matches!(&token.lexeme, Lexeme::Number { value: v, width: w } if *v == value && *w == width)
            );
        }
    }
    for (text, sign) in [
        (b"header".as_slice(), Sign::Header),
        (b"FlowArray", Sign::FlowArray),
        (b"inout", Sign::Inout),
        (b"flow_key", Sign::FlowKey),
        (b"default_action", Sign::DefaultAction),
    ] {
        let tokens = Tokens::read(rt.alloc(), text)?;
        for token in tokens.as_slice() {
            assert!(rt; matches!(&token.lexeme, Lexeme::Sign(s) if *s == sign));
        }
    }
    Ok(())
}

#[test]
fn a_text_of_full_size_is_read(rt: HostRuntime) -> Result<(), Fail> {
    let mut text = vec![in rt.alloc(); b'.'; 262_144]?;
    assert_eq!(rt; Tokens::read(rt.alloc(), &text)?.as_slice().len(), 262_144);
    text.push(b'.')?;
    let refused = Refused {
        at: 0,
        why: Why::TooLong,
    };
    assert_eq!(rt;
        Tokens::read(rt.alloc(), &text).err(),
        Some(LexEnd::Refused(refused))
    );
    Ok(())
}
