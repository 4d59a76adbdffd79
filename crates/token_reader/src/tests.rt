use super::Cursor;
use cm_base::{Name, Place};
use cm_tree::{Reserved, Sign, Token, TokenKind};
use std::test::Fail;

fn token(kind: TokenKind, column: u32) -> Token {
    Token {
        kind,
        start: column,
        end: column,
        place: Place {
            file: 1,
            line: 1,
            column,
        },
    }
}

// Each method goes past what stands there, and stays where something else stands.
#[test]
fn reads_in_order(rt: HostRuntime) -> Result<(), Fail> {
    let mut tokens = Vec::new(rt.alloc());
    let name = Name::from_str(rt.alloc(), "latency")?;
    tokens.push(token(TokenKind::Word(name), 1))?;
    tokens.push(token(TokenKind::Reserved(Reserved::Else), 9))?;
    tokens.push(token(TokenKind::Sign(Sign::Semicolon), 14))?;
    let mut cursor = Cursor::new(rt.alloc(), &tokens);
    assert!(rt; cursor.expect(Sign::Semicolon).is_err());
    assert!(rt; cursor.expect_reserved(Reserved::If).is_err());
    assert!(rt; cursor.expect_word(b"latch").is_err());
    assert_eq!(rt; cursor.left(), 3);
    assert!(rt; cursor.sees_word(b"latency"));
    let (place, text) = cursor.name().ok().ok_or("a name stands there")?;
    assert_eq!(rt; place.column, 1);
    assert_eq!(rt; text.as_str(), "latency");
    assert!(rt; cursor.name().is_err());
    assert!(rt; cursor.expect_reserved(Reserved::Else).is_ok());
    assert!(rt; cursor.sees(Sign::Semicolon));
    assert!(rt; cursor.expect(Sign::Semicolon).is_ok());
    cursor.skip();
    assert!(rt; cursor.peek().is_none());
    Ok(())
}
