//! What no clause says: worked examples, and cases that suites of JSON parsers have.
use cfg_json::{Member, MemberValue, members, only_members};
use std::alloc::{AllocError, Global};
use std::test::Fail;

fn member_words(alloc: Global, member: &Member) -> Result<String, AllocError> {
    let key = member.key.as_str();
    match &member.value {
        MemberValue::Text(text) => format!(in alloc; ";{key}=text {}", text.as_str()),
        MemberValue::Number(text) => format!(in alloc; ";{key}=number {}", text.as_str()),
        MemberValue::Object { from, to } => format!(in alloc; ";{key}=object {from} {to}"),
        MemberValue::Array { has_object } => format!(in alloc; ";{key}=array {has_object}"),
        MemberValue::Other => format!(in alloc; ";{key}=other"),
    }
}

fn list_words(alloc: Global, members: &[Member]) -> Result<String, AllocError> {
    let mut words = String::new(alloc);
    for member in members {
        let piece = member_words(alloc, member)?;
        words.push_str(piece.as_str())?;
    }
    Ok(words)
}

// Where the object ends with which the bytes begin, and its members; and whether the bytes are no
// more than an object.
fn words_of(alloc: Global, bytes: &[u8]) -> Result<String, AllocError> {
    let only = match only_members(alloc, bytes) {
        Ok(_) => "all ",
        Err(_) => "",
    };
    match members(alloc, bytes) {
        Ok(read) => {
            let list = list_words(alloc, read.list.as_slice())?;
            format!(in alloc; "{only}{}{list}", read.end)
        }
        Err(e) => format!(in alloc; "{only}{e:?}"),
    }
}

const TABLE: &[(&[u8], &str)] = &[
    (b"{\"a\":{\"b\":1}} x", "13;a=object 5 12"),
    (b"{} {}", "2"),
    (b"{} \xFF", "2"),
    (b" \t\r\n{ } \n", "all 7"),
    (b"", "NotObject"),
    (b"404: not found", "NotObject"),
    (b"[1,2,3]", "NotObject"),
    (b"\xEF\xBB\xBF{}", "NotObject"),
    (b"{\"a\":1", "Syntax"),
    (b"{\"a\":\"\\ud800\"}", "Syntax"),
    (b"{\"a\":\"\\udc00\"}", "Syntax"),
    (b"{\"a\":\"\\ud800\\u0041\"}", "Syntax"),
    (b"{\"a\":\"\\uD834\\uDD1E\"}", "all 20;a=text \u{1d11e}"),
    (
        b"{\"a\":\"\\\"\\\\\\/\\b\\f\\n\\r\\t\"}",
        "all 24;a=text \"\\/\x08\x0C\n\r\t",
    ),
    (
        b"{\"a\":\"\\u0000\\u00e9\x7F\"}",
        "all 21;a=text \x00\u{e9}\x7F",
    ),
    (b"{\"a\":\"\x1F\"}", "Syntax"),
    (b"{\"a\":\"\n\"}", "Syntax"),
    (b"{\"a\":\"\\x\"}", "Syntax"),
    (b"{\"a\":\"\\u12\"}", "Syntax"),
    (b"{\"a\":\"\\U0041\"}", "Syntax"),
    (b"{\"a\":\"\xC3\xA9\"}", "all 10;a=text \u{e9}"),
    (b"{\"a\":\"\xC3\"}", "Syntax"),
    (b"{\"a\":\"\xC0\xAF\"}", "Syntax"),
    (b"{\"a\":\"\xED\xA0\x80\"}", "Syntax"),
    (b"{\"a\":\"\xF4\x90\x80\x80\"}", "Syntax"),
    (b"{\"\\u0061\":1,\"a\":2}", "all 18;a=number 1;a=number 2"),
    (b"{ \"a\" : true , \"b\" : null }", "all 27;a=other;b=other"),
    (b"{\"a\":True}", "Syntax"),
    (b"{\"a\":nullx}", "Syntax"),
    (b"{\"a\":-0}", "all 8;a=number -0"),
    (b"{\"a\":-1.50E-07}", "all 15;a=number -1.50E-07"),
    (b"{\"a\":1e400}", "all 11;a=number 1e400"),
    (b"{\"a\":-}", "Syntax"),
    (b"{\"a\":+1}", "Syntax"),
    (b"{\"a\":01}", "Syntax"),
    (b"{\"a\":1.}", "Syntax"),
    (b"{\"a\":.1}", "Syntax"),
    (b"{\"a\":1e+}", "Syntax"),
    (b"{\"a\":0x10}", "Syntax"),
    (b"{\"a\":NaN}", "Syntax"),
    (b"{\"a\":[]}", "all 8;a=array false"),
    (b"{\"a\":[ 1 , [\"x\", {} ] ]}", "all 24;a=array true"),
    (b"{\"a\":[[1],[2,\"{\"]]}", "all 19;a=array false"),
    (b"{\"a\":[1,]}", "Syntax"),
    (b"{\"a\":[1 2]}", "Syntax"),
    (b"{\"a\":1,}", "Syntax"),
    (b"{,}", "Syntax"),
    (b"{a:1}", "Syntax"),
    (b"{\"a\" 1}", "Syntax"),
    (b"{'a':1}", "Syntax"),
    // arrays to a depth of 128, with the object itself, and one more
    (
        b"{\"a\":[[[[[[[[[[[[[[[[[[[[[[[[[[[[[[[[[[[[[[[[[[[[[[[[[[[[[[[[[[[[[[[[[[[[[[[[[[[[[[[[[[[[[[[[[[[[[[[[[[[[[[[[[[[[[[[[[[[[[[[[[[[[[[[]]]]]]]]]]]]]]]]]]]]]]]]]]]]]]]]]]]]]]]]]]]]]]]]]]]]]]]]]]]]]]]]]]]]]]]]]]]]]]]]]]]]]]]]]]]]]]]]]]]]]]]]]]]]]]]]]]]]]]]]]]]]]]]}",
        "all 260;a=array false",
    ),
    (
        b"{\"a\":[[[[[[[[[[[[[[[[[[[[[[[[[[[[[[[[[[[[[[[[[[[[[[[[[[[[[[[[[[[[[[[[[[[[[[[[[[[[[[[[[[[[[[[[[[[[[[[[[[[[[[[[[[[[[[[[[[[[[[[[[[[[[[[[]]]]]]]]]]]]]]]]]]]]]]]]]]]]]]]]]]]]]]]]]]]]]]]]]]]]]]]]]]]]]]]]]]]]]]]]]]]]]]]]]]]]]]]]]]]]]]]]]]]]]]]]]]]]]]]]]]]]]]]]]]]]]]]]}",
        "Syntax",
    ),
];

#[test]
fn objects_of_texts(rt: HostRuntime) -> Result<(), Fail> {
    for (bytes, want) in TABLE {
        let words = words_of(rt.alloc(), bytes)?;
        assert_eq!(rt; words.as_str(), *want, "{bytes:?}");
    }
    Ok(())
}

const DOCUMENT: &[u8] =
    br#"{"AccessKeyId":"MUA","SecretAccessKey":"/7PC5om","Token":"AQoDY=","Expiration":"2016-02-25T06:03:31Z","Other":[1.5e-7,{"\u0061":null}]}"#;

#[test]
fn no_beginning_of_a_document_is_one(rt: HostRuntime) -> Result<(), Fail> {
    for length in 0..DOCUMENT.len() {
        let beginning = DOCUMENT.get(..length).ok_or("no beginning")?;
        let words = words_of(rt.alloc(), beginning)?;
        let want = if length == 0 { "NotObject" } else { "Syntax" };
        assert_eq!(rt; words.as_str(), want, "{length}");
    }
    Ok(())
}
