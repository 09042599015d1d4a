use net_names::Code;
use std::test::Fail;

#[test]
fn prints_its_text(rt: HostRuntime) -> Result<(), Fail> {
    let text = format!(in rt.alloc(); "refused {}", Code::NoSpace)?;
    assert_eq!(rt; text.as_str(), "refused ENOSPC");
    Ok(())
}
