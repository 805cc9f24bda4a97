// UTF-8 of RFC 3629. The limits are those of its sections 3 and 4, the examples those of its section 7. Python's
// `bytes.decode('utf-8')` and Rust's `std::str::from_utf8` were asked about each line, and both say what stands here.
use super::lines;
use super::lines::Question;
use super::tally::Tally;

// The first and the last character of each length: U+0000 and U+007F, U+0080 and U+07FF, U+0800 and U+FFFF, U+10000 and
// U+10FFFF. The neighbours of the surrogates, U+D7FF and U+E000. RFC 3629, section 7: "A<NOT IDENTICAL TO><ALPHA>.", the Korean
// "hangugeo", the Japanese "nihongo", and a character of four octets behind a byte order mark. Then nothing; and since octets
// pass eight at a time, characters before, across and after a multiple of eight.
pub(crate) fn accepted(t: Tally) -> Tally {
    lines::ask(
        t,
        Question::IsUtf8,
        b"\x00\n\
        \x7f\n\
        \xc2\x80\n\
        \xdf\xbf\n\
        \xe0\xa0\x80\n\
        \xef\xbf\xbf\n\
        \xf0\x90\x80\x80\n\
        \xf4\x8f\xbf\xbf\n\
        \xed\x9f\xbf\n\
        \xee\x80\x80\n\
        \x41\xe2\x89\xa2\xce\x91\x2e\n\
        \xed\x95\x9c\xea\xb5\xad\xec\x96\xb4\n\
        \xe6\x97\xa5\xe6\x9c\xac\xe8\xaa\x9e\n\
        \xef\xbb\xbf\xf0\xa3\x8e\xb4\n\
        \n\
        12345678\n\
        1234567890123456789\n\
        1234567\xc3\xa9\n\
        12345678\xf0\x9d\x84\x9e12345678\n\
        \xe6\xb0\xb412345678\xc3\xa9\n",
    )
}

// The first and the last of each form that is longer than its character needs. U+D800, U+DFFF, and a pair of surrogates that
// stands for U+10000. Beyond U+10FFFF, and the forms of five and six octets of the RFC's forerunner.
fn no_character(t: Tally) -> Tally {
    lines::ask(
        t,
        Question::IsNotUtf8,
        b"\xc0\x80\n\
        \xc1\xbf\n\
        \xe0\x80\x80\n\
        \xe0\x9f\xbf\n\
        \xf0\x80\x80\x80\n\
        \xf0\x8f\xbf\xbf\n\
        \xed\xa0\x80\n\
        \xed\xbf\xbf\n\
        \xed\xa0\x80\xed\xb0\x80\n\
        \xf4\x90\x80\x80\n\
        \xf5\x80\x80\x80\n\
        \xf7\xbf\xbf\xbf\n\
        \xf8\x88\x80\x80\x80\n\
        \xfb\xbf\xbf\xbf\xbf\n\
        \xfc\x84\x80\x80\x80\x80\n\
        \xfd\xbf\xbf\xbf\xbf\xbf\n\
        \xfe\n\
        \xff\n",
    )
}

// Characters that the end of the bytes cuts. Continuation octets where a character begins. Characters that begin where a
// continuation octet is due.
fn miscounted(t: Tally) -> Tally {
    lines::ask(
        t,
        Question::IsNotUtf8,
        b"\xc2\n\
        \xdf\n\
        \xe0\n\
        \xe0\xa0\n\
        \xef\xbf\n\
        \xf0\n\
        \xf0\x90\n\
        \xf0\x90\x80\n\
        \xf4\x8f\xbf\n\
        12345678\xe6\xb0\n\
        \x80\n\
        \xbf\n\
        a\x80\n\
        \xc2\x80\x80\n\
        \xe0\xa0\x80\x80\n\
        \xf0\x90\x80\x80\x80\n\
        1234567\x80\n\
        12345678\x80\n\
        \xc2a\n\
        \xc2\xc2\x80\n\
        \xe0\xa0a\n\
        \xe0a\x80\n\
        \xf0\x90\x80a\n\
        \xf0\x90\x80\xc2\x80\n\
        \xe6\xb012345678\n",
    )
}

pub(crate) fn refused(t: Tally) -> Tally {
    miscounted(no_character(t))
}
