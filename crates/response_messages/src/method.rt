ghost use Rattle.std.specs.Prelude.{◌≡◌, ◌↔◌, Some};
ghost use Rattle.response_messages.specs.declared.method.Method.{Method as ServiceMethod};
ghost use Rattle.response_messages.specs.Methods.{path_of};

/// A method of the service (`base.proto`, SparkConnectService).
#[derive(Clone, Copy, Debug, PartialEq, Eq)]
pub enum Method {
    ExecutePlan,
    AnalyzePlan,
    Config,
    Interrupt,
    ReattachExecute,
    ReleaseExecute,
}

impl Method {
    /// The method that is called at this path: the service's name between two slashes, and then the method's name. None at any other path.
    /// It takes no memory.
    pub fn of_path(path: &str) -> Option<Method>
        ensures { (method : ServiceMethod) → (result ≡ Some method) ↔ (path.now ≡ path_of method) }
    {
        match path {
            "/spark.connect.SparkConnectService/ExecutePlan" => Some(Method::ExecutePlan),
            "/spark.connect.SparkConnectService/AnalyzePlan" => Some(Method::AnalyzePlan),
            "/spark.connect.SparkConnectService/Config" => Some(Method::Config),
            "/spark.connect.SparkConnectService/Interrupt" => Some(Method::Interrupt),
            "/spark.connect.SparkConnectService/ReattachExecute" => Some(Method::ReattachExecute),
            "/spark.connect.SparkConnectService/ReleaseExecute" => Some(Method::ReleaseExecute),
            _ => None,
        }
    }
}
