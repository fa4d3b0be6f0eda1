// The kind of a word, found among the keywords of its length.
ghost use Rattle.std.specs.Prelude.{◌≡◌, map};
ghost use Rattle.tokens.specs.Tokens.{words_1};
ghost use Rattle.words.specs.Keywords.{keyword_of};
ghost use Rattle.words.specs.Spellings.{spelling};

use tokens::IDENT;

// The kind of a word: its own where it is a keyword, else IDENT. Each length has its spellings here: with a table that is indexed by the
// length a scan of rule files takes 10 percent more instructions, and one `match` of all forty has more than a hundred goals.
pub fn keyword(word: &[u8]) -> u32
    ensures { result ≡ keyword_of words_1 word.now }
{
    match word.len() {
        2 => among(&[(b"at", 5), (b"in", 22), (b"of", 30), (b"or", 31)], word),
        3 => among(
            &[
                (b"all", 1),
                (b"and", 2),
                (b"any", 3),
                (b"for", 15),
                (b"not", 29),
                (b"xor", 40),
            ],
            word,
        ),
        4 => among(
            &[
                (b"meta", 26),
                (b"none", 28),
                (b"rule", 33),
                (b"them", 36),
                (b"true", 37),
                (b"wide", 38),
                (b"with", 39),
            ],
            word,
        ),
        5 => among(&[(b"ascii", 4), (b"false", 13)], word),
        6 => among(
            &[
                (b"base64", 6),
                (b"global", 17),
                (b"import", 21),
                (b"nocase", 27),
            ],
            word,
        ),
        7 => among(
            &[
                (b"defined", 10),
                (b"iequals", 20),
                (b"include", 23),
                (b"matches", 25),
                (b"private", 32),
                (b"strings", 35),
            ],
            word,
        ),
        8 => among(
            &[
                (b"contains", 9),
                (b"endswith", 11),
                (b"filesize", 14),
                (b"fullword", 16),
            ],
            word,
        ),
        9 => among(
            &[(b"condition", 8), (b"icontains", 18), (b"iendswith", 19)],
            word,
        ),
        10 => among(
            &[(b"base64wide", 7), (b"entrypoint", 12), (b"startswith", 34)],
            word,
        ),
        11 => among(&[(b"istartswith", 24)], word),
        _ => IDENT,
    }
}

// The kind of a word among some spellings: that of the first that it is, else IDENT. Put where it is called, so that they are constants.
#[inline(always)]
fn among(spellings: &[(&[u8], u32)], word: &[u8]) -> u32
    ensures { result ≡ keyword_of (map spelling spellings.now) word.now }
{
    match spellings.iter().find(|spelling| word == spelling.0) {
        Some(spelling) => spelling.1,
        None => IDENT,
    }
}
