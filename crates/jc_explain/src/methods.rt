//! The methods of JCache that ops are spelt after.
ghost use Rattle.std.specs.Prelude.{◌≡◌};
ghost use Rattle.jc_explain.specs.Methods.{op_of_method};
ghost use Rattle.jc_explain.specs.Words.{word_lent};

/// The op that a method is, where its name is not the op's own: of `javax.cache.Cache`, of its manager, and of its iterator
/// (JSR 107, sections 4 and 6).
pub fn op_of_method(name: &str) -> Option<&'static str>
    ensures { word_lent result ≡ op_of_method name.now }
{
    match name {
        "getAll" => Some("get_all"),
        "containsKey" => Some("contains"),
        "putIfAbsent" => Some("put_if_absent"),
        "getAndPut" => Some("get_and_put"),
        "getAndReplace" => Some("get_and_replace"),
        "getAndRemove" => Some("get_and_remove"),
        "putAll" => Some("put_all"),
        "removeAll" => Some("remove_all"),
        "loadAll" => Some("load_all"),
        "invokeAll" => Some("invoke_all"),
        "iterator" => Some("entries"),
        "createCache" => Some("create"),
        "destroyCache" => Some("destroy"),
        _ => None,
    }
}
