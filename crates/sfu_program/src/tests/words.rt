// The words of `serve`.
use crate::serve::read_serve;
use std::test::Fail;

#[test]
fn the_words_of_serve_say_how_many_turns(rt: HostRuntime) -> Result<(), Fail> {
    let alloc = rt.alloc();
    let rows: [(&[&str], Option<u64>); 10] = [
        (&["serve", "1"], Some(1)),
        (&["serve", "1000000000000"], Some(1_000_000_000_000)),
        (&["serve", "1000000000001"], None),
        (&["serve", "0"], None),
        (&["serve", "01"], None),
        (&["serve", "+1"], None),
        (&["serve", ""], None),
        (&["serve"], None),
        (&["serve", "1", "1"], None),
        (&["served", "1"], None),
    ];
    for (texts, turns) in rows {
        let mut words = Vec::new(alloc);
        for text in texts {
            words.push(String::from_str(alloc, text)?)?;
        }
        assert_eq!(rt; read_serve(words.as_slice()), turns);
    }
    Ok(())
}
