use cfg_json::ObjectWriter;
use cfg_types::{OutOfMemory, Text};
use std::alloc::Global;
use std::test::Fail;

// An object with two texts, within one with an empty object.
fn written(alloc: Global) -> Result<Text, OutOfMemory> {
    let mut inner = ObjectWriter::new(alloc);
    inner.text("\\", "\"\n\u{8}\u{c}\r\t/\u{1f}\u{7f}\u{e9}")?;
    inner.text("", "")?;
    let mut outer = ObjectWriter::new(alloc);
    outer.object("o", ObjectWriter::new(alloc))?;
    outer.object("p", inner)?;
    outer.text("q", "z")?;
    outer.finish()
}

#[test]
fn written_objects(rt: HostRuntime) -> Result<(), Fail> {
    let text = written(rt.alloc())?;
    assert_eq!(rt;
        text.as_str(),
        "{\"o\":{},\"p\":{\"\\\\\":\"\\\"\\n\\b\\f\\r\\t/\\u001f\u{7f}\u{e9}\",\"\":\"\"},\"q\":\"z\"}"
    );
    Ok(())
}
