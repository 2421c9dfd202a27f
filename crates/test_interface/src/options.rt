use html5ever_interface::options::TokenizerOpts;
use html5ever_interface::states::State;
use std::alloc::Global;

#[test]
fn options_drop_a_byte_order_mark_where_none_are_chosen(rt: HostRuntime) {
    let opts: TokenizerOpts<Global> = TokenizerOpts::default();
    assert!(rt; !opts.exact_errors);
    assert!(rt; opts.discard_bom);
    assert!(rt; opts.initial_state.is_none());
    assert!(rt; opts.last_start_tag_name.is_none());
}

#[test]
fn clones_are_equal(rt: HostRuntime) {
    let name = String::from_str(rt.alloc(), "textarea").expect(&rt, "memory");
    let opts = TokenizerOpts {
        exact_errors: true,
        discard_bom: false,
        initial_state: Some(State::CdataSection),
        last_start_tag_name: Some(name),
    };
    assert!(rt; opts.try_clone().expect(&rt, "memory") == opts);
}
