use crate::{Keyword, Token, Tokens};
use cn_base::OutOfMemory;
use std::alloc::Global;
use std::test::Fail;

/// Texts, a letter for each of their tokens, and where the last one begins.
static READ: [(&str, &str, usize); 11] = [
    ("", "", 0),
    (" \t\n", "", 0),
    ("range 0 3 1", "w###", 10),
    ("Range\r", "n?", 5),
    ("a.`b``c`", "nsn", 2),
    ("'it''s' date '2024-02-29'", "qwd", 13),
    ("'2023-02-29' 'open", "q?", 13),
    ("-1 - 1L", "-#-#n", 6),
    ("a<=>b<=c<d", "nsnsnsn", 9),
    ("x9 9x", "n#n", 4),
    ("1+2*(3)", "#s#ss#s", 6),
];

/// Words of the grammar.
static WORDS: [&str; 12] = [
    "id",
    "on",
    "all",
    "div",
    "cast",
    "with",
    "table",
    "select",
    "integer",
    "distinct",
    "intersect",
    "overwrite",
];

/// Words that are none.
static OTHERS: [&str; 8] = [
    "",
    "a",
    "ID",
    "Range",
    "ranges",
    "outer",
    "distinc",
    "overwrites",
];

fn letter(token: &Token) -> &'static str {
    match token {
        Token::Word(_) => "w",
        Token::Name(_) => "n",
        Token::Quotation(quotation) => {
            if quotation.day.is_some() {
                return "d";
            }
            "q"
        }
        Token::Number(_) => "#",
        Token::Minus(_) => "-",
        Token::Sign(_) => "s",
        Token::Nothing => "?",
        Token::End => "e",
    }
}

/// A letter for each token, and where the last one begins. A text has no more tokens than bytes.
fn read(alloc: Global, text: &str) -> Result<(String, usize), OutOfMemory> {
    let mut tokens = Tokens::of(text);
    let mut letters = String::new(alloc);
    let mut last = 0;
    for _ in 0..text.len() {
        if let Some(placed) = tokens.next(alloc)? {
            letters.push_str(letter(&placed.token))?;
            last = placed.at;
        }
    }
    Ok((letters, last))
}

#[test]
fn tokens_are_read_at_their_places(rt: HostRuntime) -> Result<(), Fail> {
    for (text, letters, last) in &READ {
        let (found, place) = read(rt.alloc(), text)?;
        assert!(rt; found.as_str() == *letters);
        assert!(rt; place == *last);
    }
    Ok(())
}

#[test]
fn words_of_the_grammar_are_in_lower_case(rt: HostRuntime) -> Result<(), Fail> {
    for word in &WORDS {
        assert!(rt; Keyword::of(word).is_some());
    }
    for word in &OTHERS {
        assert!(rt; Keyword::of(word).is_none());
    }
    Ok(())
}
